//! Values that exclude a wrong body of `list_at`.

ghost use Rattle.std.specs.Prelude.{◌≡◌, pos, Err};
ghost use Rattle.toml.specs.Data.{array, integer, no_items, item};
ghost use Rattle.toml.specs.View.{view};
ghost use Rattle.vm_shape.specs.declared.fault.DescFault.TheVariants.{OverLimit};
ghost use Rattle.vm_shape.specs.declared.key.Key.TheVariants as key;

use toml::Value;
use toml::value::Array;
use vm_desc::fields::list_at;
use vm_shape::{DescFault, Key};

pub fn a_long_list_is_over_its_limit<'a>(value: &'a Value) -> Result<&'a Array, DescFault>
    requires { view value.now ≡ array (item (integer (pos 1)) (item (integer (pos 2)) no_items)) }
    ensures { result ≡ Err (OverLimit key.Shared) }
{
    list_at(Key::Shared, 1, value)
}
