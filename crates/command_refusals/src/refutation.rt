//! Why a report doesn't show serial behaviour.

ghost use Rattle.std.specs.Prelude.{◌++◌, codes, decimal};
ghost use Rattle.mate_files.specs.Pen.{Prints};
ghost use Rattle.command_refusals.specs.Refutations.{node_words};

use crate::line_ends::print_numbered;
use mate_files::{Pen, Sink};
use mate_journal::Law;

/// Why a report is refuted.
#[derive(Clone, Copy)]
pub enum Refutation {
    /// The bytes are no report's text: the first line, counted from 1, that doesn't fit.
    Line { line: u32 },
    /// The lowest node, from 0, whose journal fails a law, and the first law that it fails.
    Node { node: u8, law: Law },
}

impl Refutation {
    ghost use Rattle.command_refusals.specs.Refutations.{refutation_words};

    pub(crate) fn print<E: Sink>(self, pen: &mut Pen, err: &mut E)
        ensures { Prints (E.written err.old) (E.faults err.old) pen.old.result (E.written err.new) (E.faults err.new) pen.new.result
            (refutation_words self) }
    {
        match self {
            Refutation::Line { line } => print_numbered(pen, err, "refuted line ", line),
            Refutation::Node { node, law } => print_node(pen, err, node, law),
        }
    }
}

// Prints the node's number and the law's word, and a line feed.
fn print_node<E: Sink>(pen: &mut Pen, err: &mut E, node: u8, law: Law)
    ensures { Prints (E.written err.old) (E.faults err.old) pen.old.result (E.written err.new) (E.faults err.new) pen.new.result
        (node_words node law) }
{
    pen.text(err, "refuted node ");
    pen.number(err, node as u64);
    pen.text(err, " ");
    pen.text(err, law.word());
    pen.text(err, "\n");
}
