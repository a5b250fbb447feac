//! The shape of a description.

ghost use Rattle.std.specs.Prelude.{◌≡◌, IsTrue};
ghost use Rattle.mate_num.specs.Shapes.{is_shape};
ghost use Rattle.vm_shape.specs.Limits.{function_args};
ghost use Rattle.vm_shape.specs.Shapes.{fun_shape, shape_of};

use crate::description::Description;
use crate::function::{FunKind, Function};
use arrayvec::ArrayVec;
use mate_num::{FUNCTIONS_MAX, FunShape, Shape};

/// What code and checked trees need to know of `desc`: the numbers of its shared variables and
/// buffers and, for each function in order, what its instruction pops, whether it sends a buffer,
/// and its device.
pub fn shape(desc: &Description) -> Shape
    ensures value { result ≡ shape_of desc.now }
    ensures limits { IsTrue (is_shape result) }
{
    let mut functions: ArrayVec<FunShape, FUNCTIONS_MAX> = ArrayVec::new();
    for function in desc.functions.as_slice() {
        functions.push(shape_of_function(function));
    }
    Shape {
        shared: desc.shared.len() as u8,
        buffers: desc.buffers.len() as u8,
        functions,
    }
}

fn shape_of_function(function: &Function) -> FunShape
    ensures { result ≡ fun_shape function.now }
{
    FunShape {
        args: match function.kind {
            FunKind::Act { args } => args,
            FunKind::Sense | FunKind::Send | FunKind::Id | FunKind::Rand | FunKind::Clock => 0,
        },
        send: match function.kind {
            FunKind::Send => true,
            FunKind::Sense | FunKind::Act { .. } | FunKind::Id | FunKind::Rand | FunKind::Clock =>
                false,
        },
        device: function.device,
    }
}
