//! From a description to its opcode table.

ghost use Rattle.std.specs.Prelude.{◌≡◌, ◌∷◌, [], length};
ghost use Rattle.mate_files.specs.Sink.{Puts};
ghost use Rattle.mate_files.specs.Pen.{Prints};
ghost use Rattle.mate_code.specs.Kind.{IsKindNamed};
ghost use Rattle.mate_code.specs.Table.{table_of};
ghost use Rattle.vm_shape.specs.Shapes.{shape_of};
ghost use Rattle.opcode_gen.specs.TableText.{names_of_functions, table_row, table_text};

use arrayvec::ArrayVec;
use mate_code::{Kind, Table};
use mate_files::{Pen, Sink, SinkFault};
use mate_num::{FUNCTIONS_MAX, Name};
use vm_shape::{Description, shape};

/// The opcode table of the machine.
pub fn table(desc: &Description) -> Table
    ensures { result ≡ table_of (shape_of desc.now) }
{
    Table::of(&shape(desc))
}

/// The names of the machine's functions, in their order. It takes no memory.
pub fn function_names(desc: &Description) -> ArrayVec<Name, FUNCTIONS_MAX>
    ensures { result.items ≡ names_of_functions desc.now }
{
    let mut names = ArrayVec::new();
    for function in desc.functions.as_slice() {
        names.push(function.name.copy());
    }
    names
}

/// Writes a line for each opcode of the machine: the opcode in two hexadecimal digits, the name of its
/// kind (a function's is its own), and the number of its operand's bytes.
pub fn print_table<S: Sink>(desc: &Description, out: &mut S) -> Result<(), SinkFault>
    ensures { Puts (S.written out.old) (S.faults out.old) (S.written out.new) (S.faults out.new) result
        (table_text desc.now) }
{
    let table = table(desc);
    let names = function_names(desc);
    let mut pen = Pen::new();
    for index in 0..table.len() {
        let opcode = index as u8;
        let Some(kind) = table.kind(opcode) else {
            unreachable!()
        };
        print_row(&mut pen, out, names.as_slice(), opcode, kind);
    }
    pen.finish()
}

// Prints the line of an opcode.
fn print_row<S: Sink>(pen: &mut Pen, out: &mut S, names: &[Name], opcode: u8, kind: Kind)
    requires { IsKindNamed names.now kind }
    ensures { Prints (S.written out.old) (S.faults out.old) pen.old.result
        (S.written out.new) (S.faults out.new) pen.new.result (table_row names.now (opcode, kind)) }
{
    pen.hex_byte(out, opcode);
    pen.text(out, " ");
    pen.text(out, kind.name(names));
    pen.text(out, " ");
    pen.number(out, kind.form().width() as u64);
    pen.text(out, "\n");
}
