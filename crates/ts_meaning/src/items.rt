//! Values in buffers and messages.

ghost use Rattle.std.specs.Prelude.{◌≡◌, MatchResult, OnOk, Ok, Err};
ghost use Rattle.mate_num.specs.Store.{item_of, item_set, appended, last_of, without_last};

use mate_num::{FaultKind, Payload};

/// The value at an index, from 0; the fault `Index` outside the values.
pub(crate) fn item(values: &[i16], index: i16) -> Result<i16, FaultKind>
    ensures { result ≡ item_of values.now index }
{
    if index < 0 {
        return Err(FaultKind::Index);
    }
    match values.get(index as usize) {
        None => Err(FaultKind::Index),
        Some(value) => Ok(*value),
    }
}

/// Replaces the value at an index, from 0; the fault `Index` outside the values.
pub(crate) fn set_item(values: &mut Payload, index: i16, value: i16) -> Result<(), FaultKind>
    ensures { let outcome = item_set values.old.items index value in
        MatchResult result (λ _. outcome ≡ Ok values.new.items) (λ kind. outcome ≡ Err kind) }
{
    if index < 0 || index as usize >= values.len() {
        return Err(FaultKind::Index);
    }
    values.as_mut_slice()[index as usize] = value;
    Ok(())
}

/// Appends a value; the fault `BufferFull` if there are 10.
pub(crate) fn append(values: &mut Payload, value: i16) -> Result<(), FaultKind>
    ensures { let outcome = appended values.old.items value in
        MatchResult result (λ _. outcome ≡ Ok values.new.items) (λ kind. outcome ≡ Err kind) }
{
    if values.is_full() {
        return Err(FaultKind::BufferFull);
    }
    values.push(value);
    Ok(())
}

/// Takes the last value; the fault `BufferEmpty` if there is none.
pub(crate) fn take_last(values: &mut Payload) -> Result<i16, FaultKind>
    ensures taken { last_of values.old.items ≡ result }
    ensures rest { OnOk result (values.new.items ≡ without_last values.old.items) }
{
    match values.pop() {
        None => Err(FaultKind::BufferEmpty),
        Some(value) => Ok(value),
    }
}
