//! Whole texts: of a report of two nodes on which nothing happens but that their first intervals begin and that their
//! stores are seen (`text`), the summary of this report (`brief`), and last lines.

ghost use Rattle.std.specs.Prelude.{◌≡◌, ◌∷◌, [], length, IfOk};
ghost use Rattle.mate_num.specs.Store.{zero_store};
ghost use Rattle.report_writer.specs.Tidy.{IsTidy};

use cases_files::{in_one_line, zero_store};
use mate_files::{MemSink, SinkFault};
use mate_journal::{Air, Aired, Airs, Entry, NodeLog, NodeLogs, Report, Stamped};
use mate_num::{NoMemory, Stamp};
use report_writer::{brief, write, write_end};
use std::alloc::{AllocError, Global};
use vm_shape::Description;

pub fn answer(alloc: Global, desc: &Description, case: &str) -> Result<String, AllocError> {
    let Ok(report) = quiet_report(alloc, desc) else {
        return "no memory".to_string(alloc);
    };
    let mut sink = MemSink::new(alloc);
    let printed = match case {
        "text" => write(desc, &report, &mut sink),
        "brief" => brief(desc, &report, &mut sink),
        "end 18 5 2" => write_end(18, 5, 2, true, &mut sink),
        "full 1000000 999936 64" => write_end(1_000_000, 999_936, 64, false, &mut sink),
        _ => Err(SinkFault::Failed),
    };
    match printed {
        Ok(()) => in_one_line(alloc, sink.bytes()),
        Err(_) => "no text".to_string(alloc),
    }
}

// The log of a node that shows its store as the second event, at 5 s.
fn quiet_log(alloc: Global, desc: &Description) -> Result<NodeLog, NoMemory>
    ensures entries { IfOk result (λ l. l.entries ≡ record { stamp = record { event = 1; time = 5000 }; entry = Entry.Seen 0 } ∷ []) }
    ensures images { IfOk result (λ l. l.images ≡ []) }
    ensures stores { IfOk result (λ l. l.stores ≡ zero_store (length desc.now.shared.items) (length desc.now.buffers.items) ∷ []) }
{
    let mut log = NodeLog::new(alloc);
    log.reserve(1)?;
    let store = log.add_store(&zero_store(desc.shared.len() as u8, desc.buffers.len() as u8));
    log.reserve(1)?;
    log.push(Stamped {
        stamp: Stamp {
            event: 1,
            time: 5000,
        },
        entry: Entry::Seen { store },
    });
    Ok(log)
}

// Two nodes whose first intervals begin, and on which nothing else happens.
fn quiet_report(alloc: Global, desc: &Description) -> Result<Report, NoMemory>
    ensures { IfOk result (λ r. IsTidy desc.now r) }
{
    let stamp = Stamp { event: 0, time: 0 };
    let mut air = Airs::new(alloc);
    air.push(Aired {
        stamp,
        node: 0,
        air: Air::Interval { length: 60000 },
    })?;
    air.push(Aired {
        stamp,
        node: 1,
        air: Air::Interval { length: 60000 },
    })?;
    let mut nodes = NodeLogs::new(alloc);
    nodes.push(quiet_log(alloc, desc)?)?;
    nodes.push(quiet_log(alloc, desc)?)?;
    Ok(Report::new(nodes, air, 0, true))
}
