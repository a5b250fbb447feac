//! From instructions to text.

ghost use Rattle.std.specs.Prelude.{◌≡◌, ◌++◌, length, codes, decimal};
ghost use Rattle.mate_files.specs.Sink.{Puts};
ghost use Rattle.mate_files.specs.Pen.{Prints};
ghost use Rattle.mate_code.specs.Kind.{kind_of, IsKindNamed, form_of};
ghost use Rattle.mate_code.specs.Instr.{FitsForm};
ghost use Rattle.mate_code.specs.Table.{AreInTable};
ghost use Rattle.mate_code.specs.Code.{instrs_of};
ghost use Rattle.mate_code.specs.Listing.{listing_text, line, operand_text};

use crate::instr::Instr;
use crate::instrs::Instrs;
use crate::kind::OperandForm;
use crate::table::Table;
use mate_files::{Pen, Sink, SinkFault};
use mate_num::Name;

/// Writes a line for each instruction: its place, its name, and its operand in decimal. A function is listed by its
/// own name, which `desc_names` has at its number.
pub fn listing<S: Sink>(
    table: &Table,
    desc_names: &[Name],
    instrs: &Instrs,
    out: &mut S,
) -> Result<(), SinkFault>
    requires in_table { AreInTable table.now (instrs_of instrs.now) }
    requires names { length desc_names.now ≡ length table.now.sends }
    ensures { Puts (S.written out.old) (S.faults out.old) (S.written out.new) (S.faults out.new) result
        (listing_text desc_names.now instrs.now) }
{
    let mut pen = Pen::new();
    for (place, instr) in instrs.as_slice() {
        print_line(&mut pen, out, desc_names, *place, *instr);
    }
    pen.finish()
}

// Prints the line of an instruction at its place.
fn print_line<S: Sink>(pen: &mut Pen, out: &mut S, desc_names: &[Name], place: u16, instr: Instr)
    requires { IsKindNamed desc_names.now (kind_of instr) }
    ensures { Prints (S.written out.old) (S.faults out.old) pen.old.result
        (S.written out.new) (S.faults out.new) pen.new.result (line desc_names.now (place, instr)) }
{
    let kind = instr.kind();
    pen.number(out, place as u64);
    pen.text(out, " ");
    pen.text(out, kind.name(desc_names));
    print_operand(pen, out, kind.form(), instr.operand());
    pen.text(out, "\n");
}

// Prints an operand after a space.
fn print_operand<S: Sink>(pen: &mut Pen, out: &mut S, form: OperandForm, operand: u16)
    requires { FitsForm form operand }
    ensures { Prints (S.written out.old) (S.faults out.old) pen.old.result
        (S.written out.new) (S.faults out.new) pen.new.result (operand_text form operand) }
{
    match form {
        OperandForm::Absent => {}
        OperandForm::Byte | OperandForm::Word => print_number(pen, out, operand),
        OperandForm::SignedWord => {
            pen.text(out, " ");
            pen.signed(out, operand.cast_signed());
        }
    }
}

fn print_number<S: Sink>(pen: &mut Pen, out: &mut S, operand: u16)
    ensures { Prints (S.written out.old) (S.faults out.old) pen.old.result
        (S.written out.new) (S.faults out.new) pen.new.result (codes " " ++ decimal operand) }
{
    pen.text(out, " ");
    pen.number(out, operand as u64);
}
