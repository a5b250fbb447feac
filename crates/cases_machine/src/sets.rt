//! Lock sets: `SET / SET` asks of each whether it is compatible with the other, and `SET ? RESOURCE` whether the set
//! reads and whether it writes the resource. A set is `-` or words like `r:s15` and `w:d0`.

ghost use Rattle.std.specs.Prelude.{IfSome, IsTrue};
ghost use Rattle.mate_num.specs.Locks.{is_resource};

use mate_num::{BufId, DeviceId, LockSet, Resource, VarId};
use std::alloc::{AllocError, Global};

pub fn answer(alloc: Global, case: &str) -> Result<String, AllocError> {
    let answers = match case.split_once(" ? ") {
        Some((set, resource)) => uses(set, resource),
        None => compatible(case),
    };
    match answers {
        Some((first, second)) => format!(in alloc; "{first} {second}"),
        None => "no sets".to_string(alloc),
    }
}

/// Whether the set reads and whether it writes the resource.
fn uses(set: &str, resource: &str) -> Option<(bool, bool)> {
    let set = set_of(set)?;
    let resource = resource_of(resource)?;
    Some((set.reads(resource), set.writes(resource)))
}

/// Whether each of two sets is compatible with the other.
fn compatible(case: &str) -> Option<(bool, bool)> {
    let (a, b) = case.split_once(" / ")?;
    let a = set_of(a)?;
    let b = set_of(b)?;
    Some((a.compatible(&b), b.compatible(&a)))
}

pub fn set_of(text: &str) -> Option<LockSet> {
    let mut set = LockSet::empty();
    if text == "-" {
        return Some(set);
    }
    for word in text.split(' ') {
        set = with(set, word)?;
    }
    Some(set)
}

/// The set and the use that a word says.
fn with(set: LockSet, word: &str) -> Option<LockSet> {
    let (use_, name) = word.split_once(':')?;
    let resource = resource_of(name)?;
    match use_ {
        "r" => Some(set.with_read(resource)),
        "w" => Some(set.with_write(resource)),
        _ => None,
    }
}

fn resource_of(name: &str) -> Option<Resource>
    ensures { IfSome result (λ r. IsTrue (is_resource r)) }
{
    let (kind, number) = name.split_at_checked(1)?;
    let Ok(number) = number.parse::<u8>() else {
        return None;
    };
    match kind {
        "s" if number < 16 => Some(Resource::Shared(VarId(number))),
        "b" if number < 8 => Some(Resource::Buffer(BufId(number))),
        "d" if number < 8 => Some(Resource::Device(DeviceId(number))),
        _ => None,
    }
}
