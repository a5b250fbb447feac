//! Instructions and their kinds.

ghost use Rattle.std.specs.Prelude.{◌≡◌, codes};

use mate_code::{Instr, Kind, Table};

pub fn a_jump_has_its_own_opcode(table: &Table) -> u8
    ensures { result ≡ 23 }
{
    table.opcode(Kind::Jmp)
}

pub fn a_word_has_two_bytes() -> usize
    ensures { result ≡ 3 }
{
    Instr::PushW(-2).size()
}

pub fn a_way_back_has_its_own_name() -> &'static str
    ensures { result.now ≡ codes "BACK" }
{
    Kind::Back.name(&[])
}
