//! What is installed on a node, and the eras that begin so.

ghost use Rattle.std.specs.Prelude.{◌≡◌, ◌≤◌, ◌<◌, true, false, List, length, IfOk, Err, OnOk, ⊤};
ghost use Rattle.capsule_codec.specs.Image.{CapsuleParts};
ghost use Rattle.mate_journal.specs.Journal.{JournalEntry, held};
ghost use Rattle.mate_journal.specs.Pace.{Pace};
ghost use Rattle.node_state.specs.Keeps.{IsTimely};
ghost use Rattle.node_state.specs.Meaning.{machine_in};
ghost use Rattle.node_calls.specs.Installing.{IsRightCapsule, capsule_handler, program_by};
ghost use Rattle.node_calls.specs.declared.installing.InstallFault.TheVariants.{NotNewer};
ghost use Rattle.node_open.specs.View.{HasPlaces, heard_of, HasPace, Tells};
ghost use Rattle.node_open.specs.declared.standing.Standing.TheVariants.{Idle};
ghost use Rattle.callers_node.specs.Told.{InstallsThis, BeginsWithEvent};

use mate_num::Stamp;
use node_calls::InstallFault;
use node_open::{OpenNode, Standing};

/// A version that isn't above the one that is held isn't taken.
pub fn an_equal_version_is_not_taken(
    node: &mut OpenNode,
    bytes: &[u8],
    at: Stamp,
) -> Result<(), InstallFault>
    requires timely { IsTimely at node.old.log }
    requires few { length node.old.log.entries < 4000000000 }
    requires room { 4 ≤ node.old.log.spare }
    requires places { HasPlaces node.old }
    ensures { (p : Pace) (c : CapsuleParts) → HasPace node.old p → IsRightCapsule node.old.description bytes.now c
        → c.version ≤ held (heard_of node.old) (capsule_handler c)
        → result ≡ Err (NotNewer (held (heard_of node.old) (capsule_handler c))) }
{
    node.install(bytes, at)
}

/// What is recorded is the capsule's own program, with its version and all its bytes.
pub fn an_install_is_told_as_it_is(
    node: &mut OpenNode,
    bytes: &[u8],
    at: Stamp,
) -> Result<(), InstallFault>
    requires timely { IsTimely at node.old.log }
    requires few { length node.old.log.entries < 4000000000 }
    requires room { 4 ≤ node.old.log.spare }
    requires places { HasPlaces node.old }
    ensures { OnOk result ((c : CapsuleParts) → IsRightCapsule node.old.description bytes.now c
        → Tells node.old node.new at (λ _ told _. InstallsThis (program_by c bytes.now) (λ _. ⊤) told)) }
{
    node.install(bytes, at)
}

/// A handler that runs once has the event itself, and no other handler.
pub fn a_handler_that_runs_once_has_the_event(
    node: &mut OpenNode,
    bytes: &[u8],
    at: Stamp,
) -> Result<(), InstallFault>
    requires timely { IsTimely at node.old.log }
    requires few { length node.old.log.entries < 4000000000 }
    requires room { 4 ≤ node.old.log.spare }
    requires places { HasPlaces node.old }
    ensures { OnOk result ((c : CapsuleParts) → IsRightCapsule node.old.description bytes.now c
        → (machine_in node.old.description).runs_once (capsule_handler c) ≡ true
        → Tells node.old node.new at (λ _ told _. InstallsThis (program_by c bytes.now) (BeginsWithEvent (capsule_handler c)) told)) }
{
    node.install(bytes, at)
}

/// No invocation goes on in the new code: where the handler doesn't run once, nothing is live behind an install.
pub fn nothing_goes_on_behind_an_install(
    node: &mut OpenNode,
    bytes: &[u8],
    at: Stamp,
) -> Result<Standing, InstallFault>
    requires timely { IsTimely at node.old.log }
    requires few { length node.old.log.entries < 4000000000 }
    requires room { 4 ≤ node.old.log.spare }
    requires places { HasPlaces node.old }
    ensures { (p : Pace) (c : CapsuleParts) → HasPace node.old p → IsRightCapsule node.old.description bytes.now c
        → (machine_in node.old.description).runs_once (capsule_handler c) ≡ false → IfOk result (λ standing. standing ≡ Idle) }
{
    node.install(bytes, at)?;
    Ok(node.standing())
}

/// Nor behind a reset.
pub fn nothing_goes_on_behind_a_reset(node: &mut OpenNode, at: Stamp) -> Standing
    requires timely { IsTimely at node.old.log }
    requires few { length node.old.log.entries < 4000000000 }
    requires room { 2 ≤ node.old.log.spare }
    ensures { (p : Pace) → HasPace node.old p → result ≡ Idle }
{
    node.reset(at);
    node.standing()
}
