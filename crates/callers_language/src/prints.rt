//! Scripts that exclude wrong bodies of `print`.

ghost use Rattle.std.specs.Prelude.{◌≡◌, [], codes};
ghost use Rattle.mate_files.specs.Sink.{Puts};
ghost use Rattle.ts_trees.specs.Seen.{source_seen};
ghost use Rattle.callers_language.specs.GrammarSources.{subtracting};

use mate_files::{Sink, SinkFault};
use ts_syntax::print;
use ts_trees::Script;

pub fn a_difference_has_a_minus<S: Sink>(script: &Script, out: &mut S) -> Result<(), SinkFault>
    requires { source_seen script.now ≡ subtracting }
    ensures { Puts (S.written out.old) (S.faults out.old) (S.written out.new) (S.faults out.new) result (codes "x = 3 - 1 ;") }
{
    print(script, out)
}
