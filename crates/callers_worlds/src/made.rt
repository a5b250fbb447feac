//! Worlds that are made from a number.

ghost use Rattle.std.specs.Prelude.{◌≡◌, ◌∷◌, [], codes, length, pos, slice_get, Some, IfOk};
ghost use Rattle.std.specs.Option.{option_map};
ghost use Rattle.script_steps.specs.declared.world.What.TheVariants as what;

use mate_num::NoMemory;
use script_reader::{Generated, generate};
use std::alloc::Global;
use vm_shape::Description;

/// Injections come before posts of the same time: 300,000 ms have one of each, behind an injection and 149 posts.
pub fn an_injection_comes_before_a_post(
    alloc: Global,
    desc: &Description,
) -> Result<Generated, NoMemory>
    requires { length desc.now.handlers.items ≡ 1 }
    ensures { IfOk result (λ made. slice_get made.world.events 151
        ≡ Some (record { time = 300000; node = 6; what = what.Post (record { 0 = 0 }) (record { items = pos 50 ∷ [] }) })) }
{
    generate(alloc, desc, 0)
}

pub fn a_second_injection_has_version_2(
    alloc: Global,
    desc: &Description,
) -> Result<Generated, NoMemory>
    requires { length desc.now.handlers.items ≡ 1 }
    ensures { IfOk result (λ made. slice_get made.world.events 150
        ≡ Some (record { time = 300000; node = 3; what = what.Inject 1 (record { 0 = 0 }) 2 })) }
{
    generate(alloc, desc, 0)
}

pub fn a_second_source_has_version_2(
    alloc: Global,
    desc: &Description,
) -> Result<Generated, NoMemory>
    requires handlers { length desc.now.handlers.items ≡ 1 }
    requires shared { desc.now.shared.items ≡ codes "a" ∷ [] }
    requires functions { desc.now.functions.items ≡ [] }
    ensures { IfOk result (λ made. slice_get made.sources 1 ≡ Some (codes "shared a; a = a + 2;")) }
{
    generate(alloc, desc, 0)
}

pub fn the_fewest_nodes_are_8(alloc: Global, desc: &Description) -> Result<Generated, NoMemory>
    ensures { IfOk result (λ made. made.world.nodes ≡ 8) }
{
    generate(alloc, desc, 57)
}
