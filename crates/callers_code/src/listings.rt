//! Tables and capsules as text.

ghost use Rattle.std.specs.Prelude.{◌≡◌, [], ◌∷◌, codes, true};
ghost use Rattle.capsule_codec.specs.Image.{capsule_parts};
ghost use Rattle.opcode_gen.specs.CapsuleText.{IsVerifiedFor};
ghost use Rattle.callers_code.specs.Listings.{base_table, table_with_send, sending};
ghost use Rattle.mate_code.specs.declared.instr.Instr.TheVariants.{PushB, Drop, Halt};
ghost use Rattle.mate_files.specs.Pen.{Prints};
ghost use Rattle.mate_files.specs.Sink.{Puts};
ghost use Rattle.mate_num.specs.Locks.{lock_uses};
ghost use Rattle.mate_num.specs.declared.resource.Resource.TheVariants.{Shared};
ghost use Rattle.vm_shape.specs.Whole.{parts_of, builtin_parts};

use capsule_codec::Capsule;
use code_verifier::Verified;
use mate_files::{Pen, Sink, SinkFault};
use mate_num::LockSet;
use opcode_gen::lock_line::print_lock_line;
use opcode_gen::{print_capsule, print_table};
use vm_shape::{Description, builtin};

pub fn an_opcode_has_two_digits<S: Sink>(out: &mut S) -> Result<(), SinkFault>
    ensures { Puts (S.written out.old) (S.faults out.old) (S.written out.new) (S.faults out.new) result base_table }
{
    print_table(&builtin(), out)
}

pub fn a_width_is_that_of_the_operand_alone<S: Sink>(
    desc: &Description,
    out: &mut S,
) -> Result<(), SinkFault>
    requires buffers { desc.now.buffers.items ≡ codes "p" ∷ [] }
    requires functions { desc.now.functions.items ≡ sending ∷ [] }
    ensures { Puts (S.written out.old) (S.faults out.old) (S.written out.new) (S.faults out.new) result table_with_send }
{
    print_table(desc, out)
}

pub fn a_capsule_is_told_with_its_version<S: Sink>(
    desc: &Description,
    capsule: &Capsule,
    code: &Verified,
    out: &mut S,
) -> Result<(), SinkFault>
    requires parts { parts_of desc.now ≡ builtin_parts }
    requires capsule { capsule_parts capsule.now ≡ record { vm_id = 1; handler = 0; version = 2; code = 0 ∷ [] } }
    requires verified { IsVerifiedFor desc.now (capsule_parts capsule.now) code.now }
    requires code { code.now.code ≡ (0, Halt) ∷ [] }
    ensures { Puts (S.written out.old) (S.faults out.old) (S.written out.new) (S.faults out.new) result
        (codes "capsule main 2 1\n0 HALT\nlocks\n") }
{
    print_capsule(desc, capsule, code, out)
}

pub fn a_capsule_is_told_with_the_size_of_its_code<S: Sink>(
    desc: &Description,
    capsule: &Capsule,
    code: &Verified,
    out: &mut S,
) -> Result<(), SinkFault>
    requires parts { parts_of desc.now ≡ builtin_parts }
    requires capsule { capsule_parts capsule.now ≡ record { vm_id = 1; handler = 0; version = 1; code = 2 ∷ 7 ∷ 25 ∷ 0 ∷ [] } }
    requires verified { IsVerifiedFor desc.now (capsule_parts capsule.now) code.now }
    requires code { code.now.code ≡ (0, PushB 7) ∷ (2, Drop) ∷ (3, Halt) ∷ [] }
    ensures { Puts (S.written out.old) (S.faults out.old) (S.written out.new) (S.faults out.new) result
        (codes "capsule main 1 4\n0 PUSHB 7\n2 DROP\n3 HALT\nlocks\n") }
{
    print_capsule(desc, capsule, code, out)
}

pub fn a_name_that_is_read_and_written_is_not_marked<S: Sink>(
    pen: &mut Pen,
    out: &mut S,
    desc: &Description,
    set: &LockSet,
)
    requires shared { desc.now.shared.items ≡ codes "a" ∷ [] }
    requires buffers { desc.now.buffers.items ≡ [] }
    requires devices { desc.now.devices.items ≡ [] }
    requires written { (lock_uses set.now).writes (Shared (record { 0 = 0 })) ≡ true }
    requires read { (lock_uses set.now).reads (Shared (record { 0 = 0 })) ≡ true }
    ensures { Prints (S.written out.old) (S.faults out.old) pen.old.result (S.written out.new) (S.faults out.new) pen.new.result
        (codes "locks a\n") }
{
    print_lock_line(pen, out, desc, set)
}
