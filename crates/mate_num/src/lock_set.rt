//! Which resources a handler reads and which it writes, as two words of bits.

ghost use Rattle.std.specs.Prelude.{◌≡◌, ℕ, ◌<◌, ◌^◌, IsTrue, MatchBool};
ghost use Rattle.mate_num.specs.Uses.{AddsResource, Conflicts, IsCompatible, no_uses, IsSameUses};
ghost use Rattle.mate_num.specs.Locks.{bit_of, is_resource, has, lock_uses, Share, IsApart};

use crate::bounds::{BUFFERS_MAX, SHARED_MAX};
use crate::resource::Resource;

/// The bit of the first buffer, above those of the shared variables.
const FIRST_BUFFER: u8 = SHARED_MAX as u8;

/// The bit of the first device, above those of the buffers.
const FIRST_DEVICE: u8 = FIRST_BUFFER + BUFFERS_MAX as u8;

/// A set of resources to read and a set of resources to write. Bit v is shared variable v,
/// bit `FIRST_BUFFER` + b is buffer b and bit `FIRST_DEVICE` + d is device d.
#[derive(Clone, Copy)]
pub struct LockSet {
    read: u32,
    written: u32,
}

/// The word that has this resource's bit alone.
fn bit(resource: Resource) -> u32
    requires { IsTrue (is_resource resource) }
    ensures { result ≡ 2 ^ bit_of resource }
{
    match resource {
        Resource::Shared(var) => 1 << var.0,
        Resource::Buffer(buf) => 1 << (FIRST_BUFFER + buf.0),
        Resource::Device(device) => 1 << (FIRST_DEVICE + device.0),
    }
}

/// A law: two lock sets with the same reads and the same writes are equal.
pub fn lock_sets_are_their_words(a: LockSet, b: LockSet)
    ensures { IsSameUses (lock_uses a) (lock_uses b) → a ≡ b }
{}

/// Whether the two words have a resource in common.
fn overlap(a: u32, b: u32) -> bool
    ensures { MatchBool result (Share a b) (IsApart a b) }
{
    a & b != 0
}

impl LockSet {
    /// Nothing to read and nothing to write.
    pub fn empty() -> LockSet
        ensures { IsSameUses (lock_uses result) no_uses }
    {
        LockSet {
            read: 0,
            written: 0,
        }
    }

    /// The set with `resource` among those to read.
    pub fn with_read(self, resource: Resource) -> LockSet
        requires { IsTrue (is_resource resource) }
        ensures reads { AddsResource (lock_uses self).reads (lock_uses result).reads resource }
        ensures writes { (lock_uses result).writes ≡ (lock_uses self).writes }
    {
        LockSet {
            read: self.read | bit(resource),
            written: self.written,
        }
    }

    /// The set with `resource` among those to write.
    pub fn with_write(self, resource: Resource) -> LockSet
        requires { IsTrue (is_resource resource) }
        ensures reads { (lock_uses result).reads ≡ (lock_uses self).reads }
        ensures writes { AddsResource (lock_uses self).writes (lock_uses result).writes resource }
    {
        LockSet {
            read: self.read,
            written: self.written | bit(resource),
        }
    }

    /// Whether `resource` is among those to read.
    pub fn reads(&self, resource: Resource) -> bool
        requires { IsTrue (is_resource resource) }
        ensures { result ≡ (lock_uses self.now).reads resource }
    {
        self.read & bit(resource) != 0
    }

    /// Whether `resource` is among those to write.
    pub fn writes(&self, resource: Resource) -> bool
        requires { IsTrue (is_resource resource) }
        ensures { result ≡ (lock_uses self.now).writes resource }
    {
        self.written & bit(resource) != 0
    }

    /// Whether neither set writes a resource that the other reads or writes.
    pub fn compatible(&self, other: &LockSet) -> bool
        ensures { MatchBool result (IsCompatible (lock_uses self.now) (lock_uses other.now))
            (Conflicts (lock_uses self.now) (lock_uses other.now)) }
    {
        !overlap(self.written, other.read | other.written)
            && !overlap(other.written, self.read | self.written)
    }
}
