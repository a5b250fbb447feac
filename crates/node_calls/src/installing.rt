//! Installs: a newer capsule replaces a handler's program, and an era begins.

ghost use Rattle.std.specs.Prelude.{◌≡◌, ◌<◌, ◌∷◌, [], length, All, IsTrue, MatchOption};
ghost use Rattle.mate_journal.specs.Journal.{Installed};
ghost use Rattle.vm_shape.specs.Shapes.{shape_of};
ghost use Rattle.code_verifier.specs.Verified.{IsVerificationOf};
ghost use Rattle.node_state.specs.Programs.{HasOwnRoom, held_at};
ghost use Rattle.node_state.specs.Fits.{IsHeld, program_of};
ghost use Rattle.node_state.specs.Meaning.{machine_in};
ghost use Rattle.node_calls.specs.Calls.{RestsAgain};
ghost use Rattle.node_calls.specs.Arrivals.{Arrives, HasBegun, CanRenew, HoldsCode, MayInstall, Prepares};
ghost use Rattle.node_calls.specs.Installing.{IsInstallable, IsReadAs, IsReadyOn, InstallGives};

use crate::era::clear;
use crate::posting::post_in;
use crate::ready::{ReadyCapsule, near};
use crate::showing::seen_in;
use capsule_codec::{CapsuleFault, CapsuleRef, decode_in_place};
use code_verifier::{Verified, VerifyFault, verify};
use lock_inference::locks;
use mate_code::Table;
use mate_num::{HandlerId, Image, Payload, Stamp};
use node_state::{Held, Parts, SharedHeld};
use vm_shape::{Description, HandlerKind, shape};

/// Why a capsule isn't installed.
#[derive(Clone, Copy)]
pub enum InstallFault {
    /// The bytes are no capsule of the machine.
    Capsule(CapsuleFault),
    /// The capsule's code isn't verified.
    Code(VerifyFault),
    /// The node holds this version for the handler, and it isn't older than the capsule's.
    NotNewer { held: u32 },
}

/// The bytes as an image.
fn image_in(description: &Description, bytes: &[u8], capsule: &CapsuleRef<'_>) -> Image
    requires { IsReadAs description.now bytes.now capsule.now }
    ensures { result.items ≡ bytes.now }
{
    let _description = description;
    let _capsule = capsule;
    let Ok(image) = Image::try_from(bytes) else {
        unreachable!()
    };
    image
}

/// The program of the capsule that the bytes are, with its code.
#[inline(never)]
fn new_program(
    description: &Description,
    bytes: &[u8],
    capsule: &CapsuleRef<'_>,
    code: Verified,
) -> Held
    requires read { IsReadAs description.now bytes.now capsule.now }
    requires verified { IsVerificationOf (shape_of description.now) capsule.now.code.now code }
    ensures { IsInstallable description.now bytes.now (record { handler = capsule.now.handler; held = result }) }
{
    program_with(description, bytes, capsule, code)
}

/// The same, written where its one caller wants it: a program is large.
#[inline(always)]
pub(crate) fn program_with(
    description: &Description,
    bytes: &[u8],
    capsule: &CapsuleRef<'_>,
    code: Verified,
) -> Held
    requires read { IsReadAs description.now bytes.now capsule.now }
    requires verified { IsVerificationOf (shape_of description.now) capsule.now.code.now code }
    ensures { IsInstallable description.now bytes.now (record { handler = capsule.now.handler; held = result }) }
{
    let locks = locks(description, &code);
    Held {
        version: capsule.version,
        image: image_in(description, bytes, capsule),
        code,
        locks,
    }
}

/// Whether the program has the capsule's code.
fn has_code(held: &Held, capsule: &CapsuleRef<'_>) -> bool
    ensures { IsTrue result → held.now.code.bytes ≡ capsule.now.code.now }
{
    held.code.code().as_slice() == capsule.code
}

/// Whether the capsule's handler holds the capsule's code.
fn holds_code(parts: &Parts, capsule: &CapsuleRef<'_>) -> bool
    ensures { IsTrue result → HoldsCode (held_at parts.now.handlers.programs capsule.now.handler) capsule.now.code.now }
{
    match parts.handlers.get(capsule.handler) {
        Some(held) => has_code(held, capsule),
        None => false,
    }
}

/// Records the store, if the version is newer than what the node holds for the handler. `NotNewer` comes exactly if it isn't.
fn prepare(
    description: &Description,
    parts: &mut Parts,
    handler: HandlerId,
    version: u32,
    at: Stamp,
) -> Result<(), InstallFault>
    requires { MayInstall description.now parts.old at }
    ensures prepares { Prepares description.now parts.old parts.new handler version at result }
    ensures gone { parts.new.log.gone ≡ parts.old.log.gone }
    ensures room { parts.new.handlers.room ≡ parts.old.handlers.room }
{
    let held = parts.handlers.version(handler);
    if version <= held {
        return Err(InstallFault::NotNewer { held });
    }
    seen_in(description, parts, at);
    Ok(())
}

/// Records that what the handler holds now was installed, and begins an era.
fn begin_era(description: &Description, parts: &mut Parts, handler: HandlerId, at: Stamp)
    requires { Arrives description.now handler at parts.old }
    ensures again { (a : Arrives description.now handler at parts.old) → RestsAgain description.now a.before parts.new at
        (λ told. told ≡ Installed (program_of handler a.x) ∷ []) }
    ensures gone { parts.new.log.gone ≡ parts.old.log.gone }
    ensures room { parts.new.handlers.room ≡ parts.old.handlers.room }
{
    let Some(held) = parts.handlers.get(handler) else {
        unreachable!()
    };
    parts
        .log
        .push_install(at, handler, held.version, &held.image);
    clear(description, parts);
}

/// The same, and then a handler that runs once is posted.
fn begin(description: &Description, parts: &mut Parts, handler: HandlerId, at: Stamp)
    requires { Arrives description.now handler at parts.old }
    ensures begins { (a : Arrives description.now handler at parts.old) → HasBegun description.now a.before parts.new handler a.x at }
    ensures gone { parts.new.log.gone ≡ parts.old.log.gone }
    ensures room { parts.new.handlers.room ≡ parts.old.handlers.room }
{
    begin_era(description, parts, handler, at);
    if runs_once(description, handler) {
        let _ = post_in(description, parts, handler, &Payload::new(), at);
    }
}

/// Whether the handler has the kind `once`.
fn runs_once(description: &Description, handler: HandlerId) -> bool
    requires { handler.0 < length description.now.handlers.items }
    ensures { result ≡ (machine_in description.now).runs_once handler }
{
    match description.handlers.as_slice()[usize::from(handler.0)].kind {
        HandlerKind::Once => true,
        HandlerKind::Plain | HandlerKind::Timer { .. } | HandlerKind::Receive => false,
    }
}

/// Installs a program of the node's own, if it is newer than what the node holds. A program is large: each call that moves it or its
/// code is in a function of its own, so that the stack holds few copies at once.
#[inline(never)]
fn install_own(
    description: &Description,
    parts: &mut Parts,
    bytes: &[u8],
    handler: HandlerId,
    held: Held,
    at: Stamp,
) -> Result<(), InstallFault>
    requires may { MayInstall description.now parts.old at }
    requires room { HasOwnRoom parts.old.handlers }
    requires can { IsInstallable description.now bytes.now (record { handler = handler; held = held }) }
    ensures installs { InstallGives description.now parts.old parts.new bytes.now at result }
    ensures gone { parts.new.log.gone ≡ parts.old.log.gone }
    ensures room { parts.new.handlers.room ≡ parts.old.handlers.room }
{
    let _bytes = bytes;
    prepare(description, parts, handler, held.version, at)?;
    parts.handlers.install(handler, held);
    begin(description, parts, handler, at);
    Ok(())
}

/// Installs a program that nodes share, if it is newer than what the node holds. It stays in its one place.
#[inline(never)]
fn install_one(
    description: &Description,
    parts: &mut Parts,
    bytes: &[u8],
    handler: HandlerId,
    program: SharedHeld,
    at: Stamp,
) -> Result<(), InstallFault>
    requires may { MayInstall description.now parts.old at }
    requires can { IsInstallable description.now bytes.now (record { handler = handler; held = program }) }
    ensures installs { InstallGives description.now parts.old parts.new bytes.now at result }
    ensures gone { parts.new.log.gone ≡ parts.old.log.gone }
    ensures room { parts.new.handlers.room ≡ parts.old.handlers.room }
{
    let _bytes = bytes;
    let version = program.as_held().version;
    prepare(description, parts, handler, version, at)?;
    parts.handlers.share(handler, program);
    begin(description, parts, handler, at);
    Ok(())
}

/// Installs the capsule that the bytes are, whose code its handler holds, if it is newer than what the node holds. What was verified of
/// the code, and its locks, are still right: they depend on the machine and the code alone. So nothing is made but what changes.
#[inline(never)]
fn install_known(
    description: &Description,
    parts: &mut Parts,
    bytes: &[u8],
    handler: HandlerId,
    version: u32,
    at: Stamp,
) -> Result<(), InstallFault>
    requires may { MayInstall description.now parts.old at }
    requires room { HasOwnRoom parts.old.handlers }
    requires can { CanRenew description.now bytes.now parts.old handler version }
    ensures installs { InstallGives description.now parts.old parts.new bytes.now at result }
    ensures gone { parts.new.log.gone ≡ parts.old.log.gone }
    ensures room { parts.new.handlers.room ≡ parts.old.handlers.room }
{
    prepare(description, parts, handler, version, at)?;
    parts.handlers.renew(handler, version, bytes);
    begin(description, parts, handler, at);
    Ok(())
}

/// Installs the capsule that the bytes are, whose code another program has, if it is newer than what the node holds. What was verified
/// of that program's code, and its locks, are right for the capsule, too.
#[inline(never)]
fn install_alike(
    description: &Description,
    parts: &mut Parts,
    bytes: &[u8],
    capsule: &CapsuleRef<'_>,
    held: &Held,
    at: Stamp,
) -> Result<(), InstallFault>
    requires may { MayInstall description.now parts.old at }
    requires room { HasOwnRoom parts.old.handlers }
    requires read { IsReadAs description.now bytes.now capsule.now }
    requires right { IsHeld description.now held.now }
    requires alike { held.now.code.bytes ≡ capsule.now.code.now }
    ensures installs { InstallGives description.now parts.old parts.new bytes.now at result }
    ensures gone { parts.new.log.gone ≡ parts.old.log.gone }
    ensures room { parts.new.handlers.room ≡ parts.old.handlers.room }
{
    let handler = capsule.handler;
    let version = capsule.version;
    prepare(description, parts, handler, version, at)?;
    parts.handlers.install_copy(handler, held, version, bytes);
    begin(description, parts, handler, at);
    Ok(())
}

/// Installs the program of the capsule that the bytes are, if it is newer than what the node holds.
#[inline(never)]
fn install_code(
    description: &Description,
    parts: &mut Parts,
    bytes: &[u8],
    capsule: &CapsuleRef<'_>,
    code: Verified,
    at: Stamp,
) -> Result<(), InstallFault>
    requires may { MayInstall description.now parts.old at }
    requires room { HasOwnRoom parts.old.handlers }
    requires read { IsReadAs description.now bytes.now capsule.now }
    requires verified { IsVerificationOf (shape_of description.now) capsule.now.code.now code }
    ensures installs { InstallGives description.now parts.old parts.new bytes.now at result }
    ensures gone { parts.new.log.gone ≡ parts.old.log.gone }
    ensures room { parts.new.handlers.room ≡ parts.old.handlers.room }
{
    let held = new_program(description, bytes, capsule, code);
    install_own(description, parts, bytes, capsule.handler, held, at)
}

/// Verifies the code of the capsule that the bytes are, and installs its program.
#[inline(never)]
fn install_new(
    description: &Description,
    parts: &mut Parts,
    bytes: &[u8],
    capsule: &CapsuleRef<'_>,
    at: Stamp,
) -> Result<(), InstallFault>
    requires may { MayInstall description.now parts.old at }
    requires room { HasOwnRoom parts.old.handlers }
    requires read { IsReadAs description.now bytes.now capsule.now }
    ensures installs { InstallGives description.now parts.old parts.new bytes.now at result }
    ensures gone { parts.new.log.gone ≡ parts.old.log.gone }
    ensures room { parts.new.handlers.room ≡ parts.old.handlers.room }
{
    let table = Table::of(&shape(description));
    match verify(&table, description, capsule.code) {
        Ok(code) => install_code(description, parts, bytes, capsule, code, at),
        Err(fault) => Err(InstallFault::Code(fault)),
    }
}

/// Installs the capsule that the bytes are beside one that is ready. If it is the same one, the node needs no more than its place; if it
/// has the same code, that needn't be verified.
#[inline(never)]
fn install_beside(
    description: &Description,
    parts: &mut Parts,
    bytes: &[u8],
    capsule: &CapsuleRef<'_>,
    ready: &ReadyCapsule,
    at: Stamp,
) -> Result<(), InstallFault>
    requires may { MayInstall description.now parts.old at }
    requires room { HasOwnRoom parts.old.handlers }
    requires read { IsReadAs description.now bytes.now capsule.now }
    requires ready { IsReadyOn description.now ready.now }
    ensures installs { InstallGives description.now parts.old parts.new bytes.now at result }
    ensures gone { parts.new.log.gone ≡ parts.old.log.gone }
    ensures room { parts.new.handlers.room ≡ parts.old.handlers.room }
{
    if let Some(program) = ready.shared_if(description, bytes) {
        return install_one(description, parts, bytes, ready.handler, program, at);
    }
    let held = ready.program.as_held();
    if has_code(held, capsule) {
        install_alike(description, parts, bytes, capsule, held, at)
    } else {
        install_new(description, parts, bytes, capsule, at)
    }
}

/// Installs the capsule that the bytes are, if it is one of those that are ready and newer than what the node holds. That takes no room
/// for a program of the node's own. None, which changes nothing, comes where it is none of them; the refusals change nothing either.
pub fn install_ready(
    description: &Description,
    parts: &mut Parts,
    bytes: &[u8],
    ready: &[ReadyCapsule],
    at: Stamp,
) -> Option<Result<(), InstallFault>>
    requires may { MayInstall description.now parts.old at }
    requires ready { All (IsReadyOn description.now) ready.now }
    ensures installs { MatchOption result (parts.new ≡ parts.old) (InstallGives description.now parts.old parts.new bytes.now at) }
    ensures gone { parts.new.log.gone ≡ parts.old.log.gone }
    ensures room { parts.new.handlers.room ≡ parts.old.handlers.room }
{
    let capsule = near(description, ready, bytes)?;
    let program = capsule.shared_if(description, bytes)?;
    Some(install_one(description, parts, bytes, capsule.handler, program, at))
}

/// Whether the capsule's handler holds the capsule's code, where a version and an image can be written in place. A shared program can't be
/// changed; but such a one is ready, and so the new one may be.
fn renews(parts: &Parts, ready: &[ReadyCapsule], capsule: &CapsuleRef<'_>) -> bool
    ensures { IsTrue result → HoldsCode (held_at parts.now.handlers.programs capsule.now.handler) capsule.now.code.now }
{
    if ready.is_empty() || parts.handlers.is_own(capsule.handler) {
        holds_code(parts, capsule)
    } else {
        false
    }
}

/// Installs the capsule of the machine that the bytes are for its handler, if it is newer than what the node holds: the store
/// is recorded, all live invocations are cut, all shared variables are 0, and all buffers are empty. A handler of the kind
/// `once` is then posted with an empty payload. What was verified of capsules that are ready, in their order, isn't verified again.
///
/// The refusals come in the order of `InstallFault`, and change nothing.
pub fn install_shared(
    description: &Description,
    parts: &mut Parts,
    bytes: &[u8],
    ready: &[ReadyCapsule],
    at: Stamp,
) -> Result<(), InstallFault>
    requires may { MayInstall description.now parts.old at }
    requires room { HasOwnRoom parts.old.handlers }
    requires ready { All (IsReadyOn description.now) ready.now }
    ensures installs { InstallGives description.now parts.old parts.new bytes.now at result }
    ensures gone { parts.new.log.gone ≡ parts.old.log.gone }
    ensures room { parts.new.handlers.room ≡ parts.old.handlers.room }
{
    let capsule = match decode_in_place(description, bytes) {
        Ok(capsule) => capsule,
        Err(fault) => return Err(InstallFault::Capsule(fault)),
    };
    if renews(parts, ready, &capsule) {
        return install_known(
            description,
            parts,
            bytes,
            capsule.handler,
            capsule.version,
            at,
        );
    }
    match near(description, ready, bytes) {
        Some(near) => install_beside(description, parts, bytes, &capsule, near, at),
        None => install_new(description, parts, bytes, &capsule, at),
    }
}
