//! A capsule, as a value of its own and in place.

ghost use Rattle.std.specs.Prelude.{◌≤◌, length};
ghost use Rattle.mate_num.specs.declared.bounds.TheConstants.{CODE_MAX};

use mate_num::{Code, HandlerId};

/// Code for one handler of one machine, with its version.
#[derive(Drop)]
pub struct Capsule {
    /// The machine's number.
    pub vm_id: u32,
    pub handler: HandlerId,
    /// 1 or more. A node takes only versions that are newer than the one it holds.
    pub version: u32,
    /// 1 to 1,040 bytes.
    pub code: Code,
    pub ghost numbered: { 1 ≤ version },
    pub ghost filled: { 1 ≤ length code.items },
}

/// A capsule whose code is in place, among the bytes of its image.
#[derive(Drop)]
pub struct CapsuleRef<'a> {
    /// The machine's number.
    pub vm_id: u32,
    pub handler: HandlerId,
    /// 1 or more.
    pub version: u32,
    /// 1 to 1,040 bytes.
    pub code: &'a [u8],
    pub ghost numbered: { 1 ≤ version },
    pub ghost filled: { 1 ≤ length code.now },
    pub ghost fits: { length code.now ≤ CODE_MAX },
}
