//! The words of a line, each put after a space in front of what is there.

ghost use Rattle.std.specs.Prelude.{◌≡◌, ◌+◌, ◌*◌, ◌≤◌, ◌++◌, length};
ghost use Rattle.mate_files.specs.Pen.{Prints};
ghost use Rattle.report_writer.specs.Chunk.{IsInFront};
ghost use Rattle.report_writer.specs.Words.{number, value, word, values, stamp_words};

use crate::chunk::Chunk;
use mate_files::{Pen, Sink};
use mate_num::Stamp;

/// Room for each line except those that show an image or a large store, in bytes.
pub const LINE: usize = 192;

/// A space and a number.
pub fn number_in_front<const ROOM: usize>(chunk: &mut Chunk<ROOM>, n: u32)
    requires { length chunk.old + 11 ≤ ROOM }
    ensures adds { IsInFront chunk.old chunk.new (number n) }
    ensures fits { length chunk.new ≤ length chunk.old + 11 }
{
    chunk.number(n as u64);
    chunk.byte(b' ');
}

/// A space and the number of a node or a context.
pub fn place_in_front<const ROOM: usize>(chunk: &mut Chunk<ROOM>, n: u8)
    requires { length chunk.old + 4 ≤ ROOM }
    ensures adds { IsInFront chunk.old chunk.new (number n) }
    ensures fits { length chunk.new ≤ length chunk.old + 4 }
{
    chunk.number(n as u64);
    chunk.byte(b' ');
}

/// A verb and a number, each after a space.
pub fn numbered<const ROOM: usize>(chunk: &mut Chunk<ROOM>, verb: &[u8], n: u32)
    requires { length verb.now + length chunk.old + 11 ≤ ROOM }
    ensures adds { IsInFront chunk.old chunk.new (verb.now ++ number n) }
    ensures fits { length chunk.new ≤ length verb.now + length chunk.old + 11 }
{
    number_in_front(chunk, n);
    chunk.text(verb);
}

/// A space and a value.
pub fn value_in_front<const ROOM: usize>(chunk: &mut Chunk<ROOM>, v: i16)
    requires { length chunk.old + 7 ≤ ROOM }
    ensures adds { IsInFront chunk.old chunk.new (value v) }
    ensures fits { length chunk.new ≤ length chunk.old + 7 }
{
    chunk.value(v);
    chunk.byte(b' ');
}

/// A space and a word.
pub fn word_in_front<const ROOM: usize>(chunk: &mut Chunk<ROOM>, bytes: &[u8])
    requires { length chunk.old + length bytes.now + 1 ≤ ROOM }
    ensures adds { IsInFront chunk.old chunk.new (word bytes.now) }
    ensures fits { length chunk.new ≡ length chunk.old + length bytes.now + 1 }
{
    chunk.text(bytes);
    chunk.byte(b' ');
}

/// Each value after a space.
pub fn values_in_front<const ROOM: usize>(chunk: &mut Chunk<ROOM>, vs: &[i16])
    requires { length chunk.old + 7 * length vs.now ≤ ROOM }
    ensures adds { IsInFront chunk.old chunk.new (values vs.now) }
    ensures fits { length chunk.new ≤ length chunk.old + 7 * length vs.now }
{
    let mut left = vs.len();
    while left > 0 {
        left -= 1;
        value_in_front(chunk, vs[left]);
    }
}

/// The event, its time in ms and the node.
pub fn stamp_in_front<const ROOM: usize>(chunk: &mut Chunk<ROOM>, stamp: Stamp, node: u8)
    requires { length chunk.old + 35 ≤ ROOM }
    ensures { IsInFront chunk.old chunk.new (stamp_words stamp node) }
{
    place_in_front(chunk, node);
    number_in_front(chunk, stamp.time);
    chunk.number(stamp.event);
}

/// Prints the line that has the stamp in front of what is in the chunk.
pub fn print_line<S: Sink, const ROOM: usize>(
    pen: &mut Pen,
    out: &mut S,
    line: &mut Chunk<ROOM>,
    stamp: Stamp,
    node: u8,
)
    requires { length line.old + 35 ≤ ROOM }
    ensures { Prints (S.written out.old) (S.faults out.old) pen.old.result (S.written out.new) (S.faults out.new) pen.new.result
        (stamp_words stamp node ++ line.old) }
{
    stamp_in_front(line, stamp, node);
    pen.bytes(out, line.as_slice());
}
