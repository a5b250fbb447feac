//! The rules on the parts of a description together.

ghost use Rattle.std.specs.Prelude.{◌≡◌, ◌≤◌, ◌++◌, length, map, None, OnOk, IsTrue};
ghost use Rattle.mate_num.specs.declared.bounds.TheConstants.{SHARED_MAX, BUFFERS_MAX, HANDLERS_MAX, CONTEXTS_MAX};
ghost use Rattle.vm_shape.specs.Names.{first_repeat};
ghost use Rattle.vm_shape.specs.Limits.{context_sum, is_trickle, is_radio, duplicate_among, round_time, longest};
ghost use Rattle.vm_shape.specs.Rules.{few_contexts, no_repeat, in_time};

use crate::fault::DescFault;
use crate::key::Key;
use crate::names::first_repeat;
use crate::{Function, Handler, RadioSet, TrickleSet};
use arrayvec::ArrayVec;
use mate_num::{
    BUFFERS_MAX, CONTEXTS_MAX, DEVICES_MAX, FRAGMENTS_MAX, FUNCTIONS_MAX, HANDLERS_MAX, Name,
    SHARED_MAX,
};

/// The greatest number of variables: shared ones and buffers, which have one list of names.
const VARIABLES_MAX: usize = SHARED_MAX + BUFFERS_MAX;

/// `OverLimit` at `Key::HandlerContexts` if the handlers have more than `CONTEXTS_MAX` contexts in all.
pub fn few_contexts(handlers: &ArrayVec<Handler, HANDLERS_MAX>) -> Result<(), DescFault>
    ensures value { result ≡ few_contexts handlers.now.items }
    ensures few { OnOk result (context_sum handlers.now.items ≤ CONTEXTS_MAX) }
{
    let contexts: u32 = handlers.iter().map(|h| u32::from(h.contexts)).sum();
    if contexts > CONTEXTS_MAX as u32 {
        return Err(DescFault::OverLimit {
            key: Key::HandlerContexts,
        });
    }
    Ok(())
}

/// `Duplicate` if a name is in its list twice.
pub fn no_repeat(
    shared: &ArrayVec<Name, SHARED_MAX>,
    buffers: &ArrayVec<Name, BUFFERS_MAX>,
    devices: &ArrayVec<Name, DEVICES_MAX>,
    handlers: &ArrayVec<Handler, HANDLERS_MAX>,
    functions: &ArrayVec<Function, FUNCTIONS_MAX>,
) -> Result<(), DescFault>
    ensures value { result ≡ no_repeat (duplicate_among shared.now.items buffers.now.items devices.now.items
        handlers.now.items functions.now.items) }
    ensures none { OnOk result (duplicate_among shared.now.items buffers.now.items devices.now.items
        handlers.now.items functions.now.items ≡ None) }
{
    only_once(variable_names(shared.as_slice(), buffers.as_slice()).as_slice())?;
    only_once(devices.as_slice())?;
    only_once(handler_names(handlers).as_slice())?;
    only_once(function_names(functions).as_slice())
}

fn only_once(names: &[Name]) -> Result<(), DescFault>
    ensures { result ≡ no_repeat (first_repeat names.now) }
{
    match first_repeat(names) {
        Some(name) => Err(DescFault::Duplicate { name }),
        None => Ok(()),
    }
}

fn variable_names(shared: &[Name], buffers: &[Name]) -> ArrayVec<Name, VARIABLES_MAX>
    requires shared { length shared.now ≤ SHARED_MAX }
    requires buffers { length buffers.now ≤ BUFFERS_MAX }
    ensures { result.items ≡ shared.now ++ buffers.now }
{
    let mut names: ArrayVec<Name, VARIABLES_MAX> = ArrayVec::new();
    for name in shared {
        names.push(name.copy());
    }
    for name in buffers {
        names.push(name.copy());
    }
    names
}

fn handler_names(handlers: &ArrayVec<Handler, HANDLERS_MAX>) -> ArrayVec<Name, HANDLERS_MAX>
    ensures { result.items ≡ map (λ h. h.name) handlers.now.items }
{
    let mut names: ArrayVec<Name, HANDLERS_MAX> = ArrayVec::new();
    for handler in handlers.as_slice() {
        names.push(handler.name.copy());
    }
    names
}

fn function_names(functions: &ArrayVec<Function, FUNCTIONS_MAX>) -> ArrayVec<Name, FUNCTIONS_MAX>
    ensures { result.items ≡ map (λ f. f.name) functions.now.items }
{
    let mut names: ArrayVec<Name, FUNCTIONS_MAX> = ArrayVec::new();
    for function in functions.as_slice() {
        names.push(function.name.copy());
    }
    names
}

/// `SlowImax` if the longest interval is shorter than the time that a round of all handlers' packets needs: for each
/// handler `FRAGMENTS_MAX` fragments, `gap` ms apart, and three times the delay.
pub fn in_time(handlers: usize, trickle: TrickleSet, radio: RadioSet) -> Result<(), DescFault>
    requires handlers { handlers ≤ HANDLERS_MAX }
    requires trickle { IsTrue (is_trickle trickle) }
    requires radio { IsTrue (is_radio radio) }
    ensures value { result ≡ in_time (round_time handlers radio) (longest trickle) }
    ensures timely { OnOk result (round_time handlers radio ≤ longest trickle) }
{
    let need = handlers as u64 * FRAGMENTS_MAX as u64 * u64::from(radio.gap)
        + 3 * u64::from(radio.delay);
    let have = u64::from(trickle.longest());
    if need > have {
        return Err(DescFault::SlowImax { need, have });
    }
    Ok(())
}
