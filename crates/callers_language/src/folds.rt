//! Scripts that exclude wrong bodies of `fold`.

ghost use Rattle.std.specs.Prelude.{◌≡◌, negsuc, IfOk};
ghost use Rattle.ts_checked.specs.Checked.{checked_tree};
ghost use Rattle.ts_checked.specs.Expression.{MsgSize, Num, Neg, Not};
ghost use Rattle.ts_checked.specs.Statement.{no_statements, Append, Clear};
ghost use Rattle.callers_language.specs.Scripts.{two_calls, cleared_by, clearing, compared, by_zero, only, whole};

use mate_num::{BufId, FunId, NoMemory};
use std::alloc::Global;
use ts_checked::Checked;
use ts_fold::fold;

pub fn calls_stay(alloc: Global, script: &Checked, fun: FunId) -> Result<Checked, NoMemory>
    requires { checked_tree script.now ≡ two_calls fun }
    ensures { IfOk result (λ new. checked_tree new ≡ two_calls fun) }
{
    fold(alloc, script)
}

pub fn false_takes_the_other_block(
    alloc: Global,
    script: &Checked,
    buffer: BufId,
    other: BufId,
) -> Result<Checked, NoMemory>
    requires { checked_tree script.now ≡ cleared_by (whole 0) buffer other }
    ensures { IfOk result (λ new. checked_tree new ≡ only (Clear other)) }
{
    fold(alloc, script)
}

pub fn true_takes_the_first_block(
    alloc: Global,
    script: &Checked,
    buffer: BufId,
    other: BufId,
) -> Result<Checked, NoMemory>
    requires { checked_tree script.now ≡ cleared_by (whole 2) buffer other }
    ensures { IfOk result (λ new. checked_tree new ≡ only (Clear buffer)) }
{
    fold(alloc, script)
}

pub fn a_test_below_0_takes_the_first_block(
    alloc: Global,
    script: &Checked,
    buffer: BufId,
    other: BufId,
) -> Result<Checked, NoMemory>
    requires { checked_tree script.now ≡ cleared_by (Num (negsuc 0)) buffer other }
    ensures { IfOk result (λ new. checked_tree new ≡ only (Clear buffer)) }
{
    fold(alloc, script)
}

pub fn an_open_test_stays(
    alloc: Global,
    script: &Checked,
    buffer: BufId,
    other: BufId,
) -> Result<Checked, NoMemory>
    requires { checked_tree script.now ≡ cleared_by MsgSize buffer other }
    ensures { IfOk result (λ new. checked_tree new ≡ cleared_by MsgSize buffer other) }
{
    fold(alloc, script)
}

pub fn a_loop_at_false_goes(
    alloc: Global,
    script: &Checked,
    buffer: BufId,
) -> Result<Checked, NoMemory>
    requires { checked_tree script.now ≡ clearing (whole 0) buffer }
    ensures { IfOk result (λ new. checked_tree new ≡ no_statements) }
{
    fold(alloc, script)
}

pub fn a_loop_at_true_stays(
    alloc: Global,
    script: &Checked,
    buffer: BufId,
) -> Result<Checked, NoMemory>
    requires { checked_tree script.now ≡ clearing (whole 1) buffer }
    ensures { IfOk result (λ new. checked_tree new ≡ clearing (whole 1) buffer) }
{
    fold(alloc, script)
}

pub fn a_comparison_is_from_the_left(
    alloc: Global,
    script: &Checked,
    buffer: BufId,
) -> Result<Checked, NoMemory>
    requires { checked_tree script.now ≡ compared buffer 2 1 }
    ensures { IfOk result (λ new. checked_tree new ≡ only (Append buffer (whole 1))) }
{
    fold(alloc, script)
}

pub fn a_division_by_0_stays(
    alloc: Global,
    script: &Checked,
    buffer: BufId,
) -> Result<Checked, NoMemory>
    requires { checked_tree script.now ≡ only (Append buffer by_zero) }
    ensures { IfOk result (λ new. checked_tree new ≡ only (Append buffer by_zero)) }
{
    fold(alloc, script)
}

pub fn the_lowest_number_is_its_own_negative(
    alloc: Global,
    script: &Checked,
    buffer: BufId,
) -> Result<Checked, NoMemory>
    requires { checked_tree script.now ≡ only (Append buffer (Neg (Num (negsuc 32767)))) }
    ensures { IfOk result (λ new. checked_tree new ≡ only (Append buffer (Num (negsuc 32767)))) }
{
    fold(alloc, script)
}

pub fn not_goes_by_truth(
    alloc: Global,
    script: &Checked,
    buffer: BufId,
) -> Result<Checked, NoMemory>
    requires { checked_tree script.now ≡ only (Append buffer (Not (whole 1))) }
    ensures { IfOk result (λ new. checked_tree new ≡ only (Append buffer (whole 0))) }
{
    fold(alloc, script)
}
