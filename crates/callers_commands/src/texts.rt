//! The text of a report and its summary.

ghost use Rattle.std.specs.Prelude.{◌≡◌, [], ◌∷◌, ◌++◌, codes};
ghost use Rattle.mate_files.specs.Sink.{Puts};
ghost use Rattle.report_writer.specs.Tidy.{IsTidy};
ghost use Rattle.callers_commands.specs.Reports.{main_alone, a_halt, a_first_post, a_reset, IsOfADrop};

use mate_files::{Sink, SinkFault};
use mate_journal::{NodeLog, Report};
use report_writer::{brief, write_end, write_event};
use vm_shape::Description;

pub fn a_piece_has_the_entries_from_its_position_on<S: Sink>(
    desc: &Description,
    log: &NodeLog,
    out: &mut S,
) -> Result<(), SinkFault>
    requires { log.now.entries ≡ a_halt ∷ a_reset ∷ [] }
    ensures { Puts (S.written out.old) (S.faults out.old) (S.written out.new) (S.faults out.new) result (codes "6 80 2 reset\n") }
{
    write_event(desc, &[], log, 1, 2, out)
}

pub fn a_post_has_the_number_of_its_invocation<S: Sink>(
    desc: &Description,
    log: &NodeLog,
    out: &mut S,
) -> Result<(), SinkFault>
    requires handlers { desc.now.handlers.items ≡ main_alone }
    requires entries { log.now.entries ≡ a_first_post ∷ [] }
    ensures { Puts (S.written out.old) (S.faults out.old) (S.written out.new) (S.faults out.new) result (codes "5 70 2 post 9 main 0\n") }
{
    write_event(desc, &[], log, 0, 2, out)
}

pub fn the_last_line_has_its_records_first<S: Sink>(out: &mut S) -> Result<(), SinkFault>
    ensures { Puts (S.written out.old) (S.faults out.old) (S.written out.new) (S.faults out.new) result (codes "end 7 5 1\n") }
{
    write_end(7, 5, 1, true, out)
}

pub fn a_drop_is_no_post<S: Sink>(
    desc: &Description,
    report: &Report,
    out: &mut S,
) -> Result<(), SinkFault>
    requires handlers { desc.now.handlers.items ≡ main_alone }
    requires report { IsOfADrop report.now }
    requires tidy { IsTidy desc.now report.now }
    ensures { Puts (S.written out.old) (S.faults out.old) (S.written out.new) (S.faults out.new) result
        (codes "nodes 1\nevents 0\nrecords 1\nposts 0\ndrops 1\nhalts 0\nfaults 0\ninstalls 0\n"
        ++ codes "sent 0\ngot 0\nlost 0\nnewest main 0 0\nend\n") }
{
    brief(desc, report, out)
}
