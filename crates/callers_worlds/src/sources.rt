//! The sources that generated worlds inject.

ghost use Rattle.std.specs.Prelude.{◌≡◌, [], ◌∷◌, codes, IfOk};
ghost use Rattle.vm_shape.specs.declared.function.Function.{Function as Called};
ghost use Rattle.vm_shape.specs.declared.function.FunKind.TheVariants.{Act};

use mate_num::{NoMemory, Text};
use script_reader::source_of;
use std::alloc::Global;
use vm_shape::Description;

/// A source that reads an actuator, or adds another digit than its version, would be another text.
pub fn an_actuator_is_not_read(alloc: Global, desc: &Description) -> Result<Text, NoMemory>
    ensures { IfOk result (λ text. (f : Called) → desc.now.shared.items ≡ codes "a" ∷ [] → desc.now.functions.items ≡ f ∷ []
        → f.kind ≡ Act 1 → text ≡ codes "shared a; a = a + 3;") }
{
    let text = source_of(alloc, desc, 3)?;
    Ok(text)
}
