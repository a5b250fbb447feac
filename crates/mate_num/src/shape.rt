//! What code and checked trees need to know of a machine's description.

ghost use Rattle.std.specs.Prelude.{◌≡◌};

use crate::bounds::FUNCTIONS_MAX;
use crate::id::DeviceId;
use arrayvec::ArrayVec;

/// A function as code sees it.
#[derive(Clone, Copy, Default)]
pub struct FunShape {
    /// How many values the function's instruction pops: 0 for one that sends a buffer.
    pub args: u8,
    /// Whether it sends a buffer.
    pub send: bool,
    /// The device that it speaks to.
    pub device: Option<DeviceId>,
}

/// How many shared variables, buffers and functions a machine has, and what each function takes.
#[derive(Drop)]
pub struct Shape {
    pub shared: u8,
    pub buffers: u8,
    pub functions: ArrayVec<FunShape, FUNCTIONS_MAX>,
}

impl Shape {
    /// The same shape again. It takes no memory.
    pub fn copy(&self) -> Shape
        ensures { result ≡ self.now }
    {
        let Ok(functions) = ArrayVec::try_from(self.functions.as_slice()) else {
            unreachable!()
        };
        Shape {
            shared: self.shared,
            buffers: self.buffers,
            functions,
        }
    }
}
