//! Laws of the byte code. Each is the contract of a call that does nothing.

ghost use Rattle.std.specs.Prelude.{◌≡◌, ℕ, List, All, Some, Ok};
ghost use Rattle.mate_code.specs.declared.kind.Kind.{Kind};
ghost use Rattle.mate_code.specs.declared.instr.Instr.{Instr};
ghost use Rattle.mate_code.specs.Table.{Layout, IsInTable, AreInTable, opcode_of, kind_at};
ghost use Rattle.mate_code.specs.Code.{code_bytes, placed, decoded, AreBytes, IsWritable, IsDecoded};

/// Each kind of a table is at its opcode, and the kind at an opcode has this opcode. So no opcode is in a table twice.
pub fn each_opcode_once()
    ensures stands { (t : Layout) (k : Kind) → IsInTable t k → kind_at t (opcode_of t k) ≡ Some k }
    ensures in_table { (t : Layout) (n : ℕ) (k : Kind) → kind_at t n ≡ Some k → IsInTable t k }
    ensures only { (t : Layout) (n : ℕ) (k : Kind) → kind_at t n ≡ Some k → opcode_of t k ≡ n }
{}

/// The encoding of instructions decodes to these, each at its place; and bytes that decode to
/// instructions are their one encoding.
pub fn one_encoding()
    ensures again { (t : Layout) (instrs : List Instr) → AreInTable t instrs → All IsWritable instrs
        → decoded t (code_bytes t instrs) ≡ Ok (placed 0 instrs) }
    ensures only { (t : Layout) (bytes : List ℕ) (pairs : List (ℕ × Instr)) → AreBytes bytes
        → decoded t bytes ≡ Ok pairs → IsDecoded t 0 bytes pairs }
{}
