//! Scripts that exclude wrong bodies of `compile`.

ghost use Rattle.std.specs.Prelude.{◌≡◌, ◌+◌, ◌<◌, ◌≤◌, [], ◌∷◌, Err, IfOk, IsOk};
ghost use Rattle.mate_num.specs.declared.bounds.TheConstants.{CODE_MAX, STACK_MAX};
ghost use Rattle.mate_code.specs.Table.{table_of};
ghost use Rattle.ts_checked.specs.Checked.{checked_shape, checked_tree};
ghost use Rattle.ts_checked.specs.Statement.{no_statements};
ghost use Rattle.ts_semantics.specs.Translation.{script_need, script_size};
ghost use Rattle.callers_language.specs.Scripts.{first_set};

use mate_code::Table;
use mate_num::Code;
use ts_checked::Checked;
use ts_compiler::{CompileFault, compile};

pub fn no_statement_is_one_byte(table: &Table, script: &Checked) -> Result<Code, CompileFault>
    requires table { table.now ≡ table_of (checked_shape script.now) }
    requires tree { checked_tree script.now ≡ no_statements }
    ensures { IfOk result (λ code. code.items ≡ 0 ∷ []) }
{
    compile(table, script)
}

pub fn a_number_of_256_takes_two_bytes(
    table: &Table,
    script: &Checked,
) -> Result<Code, CompileFault>
    requires table { table.now ≡ table_of (checked_shape script.now) }
    requires tree { checked_tree script.now ≡ first_set 256 }
    ensures { IfOk result (λ code. code.items ≡ 1 ∷ 1 ∷ 0 ∷ 6 ∷ 0 ∷ 0 ∷ []) }
{
    compile(table, script)
}

pub fn the_longest_code_is_written(table: &Table, script: &Checked) -> Result<Code, CompileFault>
    requires table { table.now ≡ table_of (checked_shape script.now) }
    requires need { script_need (checked_tree script.now) ≤ STACK_MAX }
    requires size { script_size (checked_tree script.now) ≡ CODE_MAX }
    ensures { IsOk result }
{
    compile(table, script)
}

pub fn a_seventeenth_value_has_no_room(
    table: &Table,
    script: &Checked,
) -> Result<Code, CompileFault>
    requires table { table.now ≡ table_of (checked_shape script.now) }
    requires need { script_need (checked_tree script.now) ≡ STACK_MAX + 1 }
    ensures { result ≡ Err (CompileFault.StackDepth (STACK_MAX + 1)) }
{
    compile(table, script)
}

pub fn a_size_is_counted_up_to_its_cap(
    table: &Table,
    script: &Checked,
) -> Result<Code, CompileFault>
    requires table { table.now ≡ table_of (checked_shape script.now) }
    requires need { script_need (checked_tree script.now) ≤ STACK_MAX }
    requires size { 1000000000 < script_size (checked_tree script.now) }
    ensures { result ≡ Err (CompileFault.TooLong 1000000000) }
{
    compile(table, script)
}
