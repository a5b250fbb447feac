//! The test that a shape is one that a machine can have.

ghost use Rattle.std.specs.Prelude.{◌≡◌};
ghost use Rattle.std.specs.List.{list_all};
ghost use Rattle.mate_num.specs.Shapes.{is_device, is_fun_shape, is_shape};

use mate_num::{BUFFERS_MAX, DEVICES_MAX, DeviceId, FunShape, SHARED_MAX, Shape};

/// Whether the shape is one that a machine can have: within the limits on variables and buffers, with functions
/// that take at most 4 values, or none if they send a buffer, and use one of a machine's devices or none.
pub fn shape_is_right(shape: &Shape) -> bool
    ensures { result ≡ is_shape shape.now }
{
    shape.shared as usize <= SHARED_MAX
        && shape.buffers as usize <= BUFFERS_MAX
        && are_right(shape.functions.as_slice())
}

fn are_right(functions: &[FunShape]) -> bool
    ensures { result ≡ list_all is_fun_shape functions.now }
{
    functions.iter().all(|function| function_is_right(function))
}

fn function_is_right(function: &FunShape) -> bool
    ensures { result ≡ is_fun_shape function.now }
{
    function.args <= 4 && (!function.send || function.args == 0) && device_is_right(function.device)
}

fn device_is_right(device: Option<DeviceId>) -> bool
    ensures { result ≡ is_device DEVICES_MAX device }
{
    match device {
        None => true,
        Some(device) => (device.0 as usize) < DEVICES_MAX,
    }
}
