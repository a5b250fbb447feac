//! How many entries of each kind there are, counted in one pass, and how many records in all.

ghost use Rattle.std.specs.Prelude.{◌≡◌, ◌*◌, ◌^◌, ◌≤◌, length, sum_by};
ghost use Rattle.mate_num.specs.declared.bounds.TheConstants.{NODES_MAX};
ghost use Rattle.report_writer.specs.Text.{records};
ghost use Rattle.report_writer.specs.Brief.{entries_of};
ghost use Rattle.report_writer.specs.declared.kinds.EntryKind.{EntryKind as Kind};
ghost use Rattle.report_writer.specs.Tally.{entries_counted, CountsUpTo};
ghost use Rattle.report_writer.specs.Counts.{CountsEntries};

use crate::EntryCounts;
use mate_journal::{NodeLog, Report, Stamped};

/// The counts of the logs' entries.
pub fn entry_counts(logs: &[NodeLog]) -> EntryCounts
    requires { length logs.now ≤ NODES_MAX }
    ensures { (k : Kind) → entries_counted k result ≡ entries_of k logs.now }
{
    let mut counts = EntryCounts {
        posts: 0,
        drops: 0,
        halts: 0,
        faults: 0,
        installs: 0,
    };
    for log in logs {
        add_entries(&mut counts, log.entries());
    }
    counts
}

/// Counts entries.
fn add_entries(counts: &mut EntryCounts, entries: &[Stamped])
    requires { CountsUpTo (2 ^ 63) counts.old }
    ensures { CountsEntries counts.old counts.new entries.now }
{
    for stamped in entries {
        counts.add(&stamped.entry);
    }
}

fn count_entries(logs: &[NodeLog]) -> u64
    requires { length logs.now ≤ NODES_MAX }
    ensures value { result ≡ sum_by (λ l. length l.entries) logs.now }
    ensures fits { result ≤ length logs.now * 2 ^ 57 }
{
    let mut count = 0;
    for log in logs {
        count += log.entries().len() as u64;
    }
    count
}

/// How many records the report has: of all logs, and of the air.
pub fn count_records(report: &Report) -> u64
    requires { length report.now.nodes ≤ NODES_MAX }
    ensures { result ≡ records report.now }
{
    report.air().len() as u64 + count_entries(report.nodes())
}
