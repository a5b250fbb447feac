//! Runs and operations that exclude wrong bodies of `play` and `apply`.

ghost use Rattle.std.specs.Prelude.{◌≡◌, [], ◌∷◌, pos, negsuc, Ok, IfOk};
ghost use Rattle.mate_num.specs.Store.{zero_store, set_value, set_buffer};
ghost use Rattle.mate_num.specs.declared.call.End.TheVariants.{Halt, Fault, Wants};
ghost use Rattle.mate_num.specs.declared.call.FaultKind.TheVariants.{Overrun};
ghost use Rattle.ts_checked.specs.Checked.{checked_tree};
ghost use Rattle.ts_checked.specs.Statement.{no_statements};
ghost use Rattle.callers_language.specs.Scripts.{two_calls, without_end, false_and_call, first_taken};

use mate_num::{BufId, FaultKind, FunId, NoMemory, Outcome, Payload, Store};
use std::alloc::Global;
use ts_checked::{BinOp, CVar, Checked};
use ts_meaning::{Played, play};
use ts_semantics::apply;

pub fn no_statement_changes_the_store(
    alloc: Global,
    script: &Checked,
    store: &Store,
) -> Result<Played, NoMemory>
    requires { checked_tree script.now ≡ no_statements }
    ensures end { IfOk result (λ played. played.end ≡ Halt) }
    ensures store { IfOk result (λ played. played.store ≡ store.now) }
{
    play(alloc, script, store, &Payload::new(), &[], 0)
}

pub fn each_call_takes_its_own_answer(
    alloc: Global,
    script: &Checked,
    store: &Store,
    fun: FunId,
) -> Result<Outcome, NoMemory>
    requires { checked_tree script.now ≡ two_calls fun }
    ensures end { IfOk result (λ played. played.end ≡ Halt) }
    ensures calls { IfOk result (λ played. played.calls ≡
        record { fun = fun; args = record { items = [] }; result = pos 7 }
        ∷ record { fun = fun; args = record { items = [] }; result = pos 9 } ∷ []) }
{
    play(alloc, script, store, &Payload::new(), &[7, 9, 4], 0)
}

pub fn a_call_wants_an_answer(
    alloc: Global,
    script: &Checked,
    store: &Store,
    fun: FunId,
) -> Result<Outcome, NoMemory>
    requires { checked_tree script.now ≡ two_calls fun }
    ensures { IfOk result (λ played. played.end ≡ Wants fun (record { items = [] })) }
{
    play(alloc, script, store, &Payload::new(), &[7], 0)
}

pub fn and_goes_on_at_false(
    alloc: Global,
    script: &Checked,
    store: &Store,
    variable: CVar,
    fun: FunId,
) -> Result<Outcome, NoMemory>
    requires { checked_tree script.now ≡ false_and_call variable fun }
    ensures { IfOk result (λ played. played.end ≡ Wants fun (record { items = [] })) }
{
    play(alloc, script, store, &Payload::new(), &[], 0)
}

pub fn going_back_takes_a_turn(
    alloc: Global,
    script: &Checked,
    store: &Store,
    buffer: BufId,
) -> Result<Outcome, NoMemory>
    requires { checked_tree script.now ≡ without_end buffer }
    ensures { IfOk result (λ played. played.end ≡ Fault Overrun) }
{
    play(alloc, script, store, &Payload::new(), &[], 1)
}

pub fn the_last_value_is_taken(
    alloc: Global,
    script: &Checked,
    store: &Store,
) -> Result<Outcome, NoMemory>
    requires script { checked_tree script.now ≡ first_taken }
    requires store { store.now ≡ set_buffer (zero_store 1 1) 0 (pos 7 ∷ pos 9 ∷ []) }
    ensures { IfOk result (λ played. played.store ≡ set_value (set_buffer (zero_store 1 1) 0 (pos 7 ∷ [])) 0 (pos 9)) }
{
    play(alloc, script, store, &Payload::new(), &[], 0)
}

pub fn a_difference_is_from_the_left() -> Result<i16, FaultKind>
    ensures { result ≡ Ok (negsuc 1) }
{
    apply(BinOp::Sub, 3, 5)
}
