//! Opcodes, and code to and from bytes.

ghost use Rattle.std.specs.Prelude.{◌≡◌, [], ◌∷◌, true, false, Some, Err, IfOk};
ghost use Rattle.mate_num.specs.declared.resource.Resource.TheVariants.{Shared};
ghost use Rattle.mate_code.specs.declared.decoding.DecodeFault.TheVariants.{BadOpcode};
ghost use Rattle.mate_code.specs.declared.kind.Kind.TheVariants.{FunBuf};
ghost use Rattle.mate_code.specs.declared.uses.Use.TheVariants.{Changes};

use mate_code::{DecodeFault, Instr, Instrs, Kind, Table, TooLong, Use, decode, encode};
use mate_num::{Code, VarId};

pub fn a_set_changes_its_variable() -> Use
    ensures { result ≡ Changes (Shared (record { 0 = 2 })) }
{
    Instr::SetS(VarId(2)).uses()
}

#[tactic(auto, unfolding(mate_code::specs::Code::decoded_from))]
pub fn an_unknown_opcode_is_told_with_its_own_place(table: &Table) -> Result<Instrs, DecodeFault>
    requires { table.now ≡ record { buffer = false; sends = [] } }
    ensures { result ≡ Err (BadOpcode 2) }
{
    decode(table, &[2, 5, 255])
}

pub fn a_function_that_sends_has_a_buffer(table: &Table) -> Option<Kind>
    requires { table.now ≡ record { buffer = true; sends = true ∷ [] } }
    ensures { result ≡ Some (FunBuf (record { 0 = 0 })) }
{
    table.kind(34)
}

pub fn a_place_begins_with_its_high_byte(table: &Table) -> Result<Code, TooLong>
    ensures { IfOk result (λ code. code.items ≡ 23 ∷ 1 ∷ 2 ∷ []) }
{
    encode(table, &[Instr::Jmp(258)])
}
