//! The answers to the frames of a stream, as lines.

ghost use Rattle.std.specs.Prelude.{◌≡◌, ◌<◌, ℕ};
ghost use Rattle.mate_files.specs.Pen.{Prints};
ghost use Rattle.mate_files.specs.Sink.{Puts};
ghost use Rattle.mate_code.specs.Table.{table_of};
ghost use Rattle.slip_gateway.specs.Pieces.{frame_at};
ghost use Rattle.vm_shape.specs.Shapes.{shape_of};
ghost use Rattle.command_documents.specs.FeedAnswers.{answer_to, held_after};
ghost use Rattle.command_documents.specs.FeedLines.{feed_text, answer_line, HasHandler};
ghost use Rattle.command_documents.specs.FeedReading.{held_by, PrintsPiece};

use crate::answer::Answer;
use crate::held_versions::HeldVersions;
use code_verifier::Verifier;
use mate_code::Table;
use mate_files::{Pen, Sink, SinkFault};
use slip_gateway::{Slip, first_piece, has_escape, plain_frame};
use vm_shape::{Description, shape};

/// What a new node holds behind the frames that were answered, and room for one of them.
#[derive(Drop)]
struct StreamAnswers {
    held: HeldVersions,
    // How many frames were answered.
    number: u64,
    // Where the escapes of a frame are replaced.
    slip: Slip,
    // Where the code of a capsule is verified.
    verifier: Verifier,
}

impl StreamAnswers {
    /// Nothing was answered.
    fn new() -> StreamAnswers
        ensures number { result.number ≡ 0 }
        ensures held { (h : ℕ) → held_by result.held h ≡ 0 }
    {
        StreamAnswers {
            held: HeldVersions::new(),
            number: 0,
            slip: Slip::new(),
            verifier: Verifier::new(),
        }
    }

    /// The answer to the frame of a piece.
    fn answer(&mut self, desc: &Description, table: &Table, piece: &[u8]) -> Answer
        requires { table.now ≡ table_of (shape_of desc.now) }
        ensures answer { result ≡ answer_to desc.now (held_by self.old.held) (frame_at piece.now) }
        ensures held { (h : ℕ) → held_by self.new.held h ≡ held_after (held_by self.old.held) result h }
        ensures number { self.new.number ≡ self.old.number }
        ensures handler { HasHandler desc.now result }
    {
        if has_escape(piece) {
            self.slip.read_piece(piece);
            return self
                .held
                .answer(desc, table, &mut self.verifier, self.slip.frame());
        }
        self.held
            .answer(desc, table, &mut self.verifier, plain_frame(piece))
    }

    /// Prints the line of the frame that a piece gives, by the machine's opcode table; an empty one gives none.
    fn print_piece<S: Sink>(
        &mut self,
        pen: &mut Pen,
        out: &mut S,
        desc: &Description,
        table: &Table,
        piece: &[u8],
    )
        requires few { self.old.number < u64.MAX }
        requires table { table.now ≡ table_of (shape_of desc.now) }
        ensures { PrintsPiece desc.now self.old self.new piece.now (S.written out.old) (S.faults out.old) pen.old.result
            (S.written out.new) (S.faults out.new) pen.new.result }
    {
        if piece.is_empty() {
            return;
        }
        self.number += 1;
        let answer = self.answer(desc, table, piece);
        print_line(pen, out, desc, self.number, answer);
    }
}

/// The line of an answer, with the number of its frame.
fn print_line<S: Sink>(pen: &mut Pen, out: &mut S, desc: &Description, number: u64, answer: Answer)
    requires { HasHandler desc.now answer }
    ensures { Prints (S.written out.old) (S.faults out.old) pen.old.result (S.written out.new) (S.faults out.new) pen.new.result
        (answer_line desc.now number answer) }
{
    pen.number(out, number);
    pen.text(out, " ");
    answer.print(pen, out, desc);
}

/// Writes what a new node of the machine answers to the frames of a stream, a line each, with the frame's number from 1.
/// It takes no memory: a frame is read in its place in the stream, unless escapes are to be replaced in it. If `out` fails, a prefix was
/// written.
pub fn write_answers<S: Sink>(
    desc: &Description,
    stream: &[u8],
    out: &mut S,
) -> Result<(), SinkFault>
    ensures { Puts (S.written out.old) (S.faults out.old) (S.written out.new) (S.faults out.new) result (feed_text desc.now stream.now) }
{
    prove!(stream.len() <= usize::MAX);
    let mut pen = Pen::new();
    let mut answers = StreamAnswers::new();
    let table = Table::of(&shape(desc));
    let mut rest = stream;
    while let Some((piece, behind)) = first_piece(rest) {
        answers.print_piece(&mut pen, out, desc, &table, piece);
        rest = behind;
    }
    pen.finish()
}
