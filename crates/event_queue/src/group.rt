//! Which items are cancelled together, and which a number tells.

ghost use Rattle.std.specs.Prelude.{◌≡◌, ◌<◌, ℕ, Option, None, IfSome};
ghost use Rattle.event_queue.specs.declared.group.TheConstants.{GROUPS};

/// How many groups there can be.
pub const GROUPS: usize = 1024;

/// An item that may belong to a group, whose items are cancelled together.
pub trait Grouped: Drop {
    ghost group_of: { Self → Option ℕ };

    ghost numbered_of: { ℕ → Self };

    /// The item's group; None where no cancel takes the item.
    fn group(&self) -> Option<u16>
        ensures value { result ≡ group_of self.now }
        ensures below { IfSome result (λ group. group < GROUPS) };

    /// The item that this number tells. No cancel takes it.
    fn numbered(number: u32) -> Self
        ensures { result ≡ numbered_of number };

    ghost stays: { (n : ℕ) → group_of (numbered_of n) ≡ None };
}
