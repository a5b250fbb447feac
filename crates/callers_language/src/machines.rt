//! Calls that exclude wrong bodies of the crate `vm_shape`.

ghost use Rattle.std.specs.Prelude.{◌≡◌, ◌≤◌, [], ◌∷◌, codes, length, Ok, false};
ghost use Rattle.vm_shape.specs.declared.function.Function.{Function as Called};
ghost use Rattle.vm_shape.specs.declared.function.FunKind.TheVariants.{Act};

use mate_num::{HandlerId, Shape};
use vm_shape::rules::in_time;
use vm_shape::{DescFault, Description, Key, RadioSet, TrickleSet, builtin, shape};

pub fn the_builtin_machine_has_one_context() -> u8
    ensures { result ≡ 1 }
{
    builtin().contexts()
}

pub fn the_builtin_machine_has_four_variables() -> Shape
    ensures { result ≡ record { shared = 4; buffers = 0; functions = record { items = [] } } }
{
    shape(&builtin())
}

pub fn the_longest_interval_doubles_four_times() -> u32
    ensures { result ≡ 16000 }
{
    builtin().trickle.longest()
}

pub fn a_period_is_a_handlers_key() -> &'static str
    ensures { result.now ≡ codes "handler.period" }
{
    Key::HandlerPeriod.word()
}

pub fn a_round_may_take_the_whole_interval() -> Result<(), DescFault>
    ensures { result ≡ Ok tt }
{
    let trickle = TrickleSet {
        imin: 28,
        doublings: 0,
        k: 1,
    };
    in_time(1, trickle, RadioSet { delay: 2, gap: 1 })
}

pub fn an_actuator_pops_its_values(desc: &Description) -> Shape
    ensures { (f : Called) → desc.now.functions.items ≡ f ∷ [] → f.kind ≡ Act 3
        → result.functions.items ≡ record { args = 3; send = false; device = f.device } ∷ [] }
{
    shape(desc)
}

/// Its first context isn't the last one of the handler before it.
pub fn the_second_handler_has_its_first_context(desc: &Description) -> HandlerId
    requires { 2 ≤ length desc.now.handlers.items }
    ensures { result.0 ≡ 1 }
{
    desc.handler_of(desc.first_context(HandlerId(1)))
}
