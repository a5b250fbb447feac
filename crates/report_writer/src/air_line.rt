//! The line of what happened on the air.

ghost use Rattle.std.specs.Prelude.{◌≤◌, length};
ghost use Rattle.mate_files.specs.Pen.{Prints};
ghost use Rattle.report_writer.specs.Chunk.{IsInFront};
ghost use Rattle.report_writer.specs.Words.{air_words};
ghost use Rattle.report_writer.specs.Text.{air_line};

use crate::chunk::Chunk;
use crate::front::{LINE, numbered, place_in_front, print_line};
use mate_files::{Pen, Sink};
use mate_journal::{Air, Aired};

/// The line of what happened on the air.
pub fn air_line<S: Sink>(pen: &mut Pen, out: &mut S, aired: &Aired)
    ensures { Prints (S.written out.old) (S.faults out.old) pen.old.result (S.written out.new) (S.faults out.new) pen.new.result
        (air_line aired.now) }
{
    let mut line: Chunk<LINE> = Chunk::new();
    line.byte(b'\n');
    air_in_front(&mut line, &aired.air);
    print_line(pen, out, &mut line, aired.stamp, aired.node);
}

/// The words of what happened on the air, in front of the end of the line.
fn air_in_front(line: &mut Chunk<LINE>, air: &Air)
    requires { length line.old ≤ 1 }
    ensures adds { IsInFront line.old line.new (air_words air.now) }
    ensures fits { length line.new ≤ 150 }
{
    match air {
        Air::Interval { length } => numbered(line, b" interval", *length),
        Air::Keep => line.text(b" keep"),
        Air::Sent { number, bytes } => {
            line.hex(bytes.as_slice());
            line.byte(b' ');
            numbered(line, b" sent", *number);
        }
        Air::Lost { number, to } => {
            place_in_front(line, *to);
            numbered(line, b" lost", *number);
        }
        Air::Got { number, from } => {
            place_in_front(line, *from);
            numbered(line, b" got", *number);
        }
        Air::Noise { bytes } => {
            line.hex(bytes.as_slice());
            line.text(b" noise ");
        }
    }
}
