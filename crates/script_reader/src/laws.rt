//! The sources of made worlds are scripts of their machines.

ghost use Rattle.std.specs.Prelude.{ℕ, ◌≤◌};
ghost use Rattle.vm_shape.specs.declared.description.Description.{Description};
ghost use Rattle.script_reader.specs.Source.{source_of};
ghost use Rattle.script_reader.specs.Sound.{IsSoundSource};

/// The law of made sources: whatever a machine's names are, it accepts the source that is made for it, and the code
/// keeps within its stack and the greatest length of code.
pub fn sources_law()
    ensures { (d : Description) (version : ℕ) → version ≤ 9 → IsSoundSource d (source_of d version) }
{}
