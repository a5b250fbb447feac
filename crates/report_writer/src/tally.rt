//! What is counted of a log and of the air, entry by entry.

ghost use Rattle.std.specs.Prelude.{◌≡◌, ◌+◌, ◌++◌, ◌≤◌, ◌<◌, ◌^◌, ℕ, List, [], length, IfOk, slice_index_or, if◌then◌else◌, ◌==◌};
ghost use Rattle.mate_journal.specs.declared.air.Aired.{Aired as AirRecord};
ghost use Rattle.mate_journal.specs.declared.entry.Stamped.{Stamped as StampedEntry};
ghost use Rattle.report_writer.specs.Brief.{is_entry, one_if};
ghost use Rattle.report_writer.specs.declared.kinds.EntryKind.TheVariants as kinds;
ghost use Rattle.report_writer.specs.Tally.{entries_counted, install_told, with_version, versions_none, versions_at, CountsUpTo, IsUpTo};
ghost use Rattle.report_writer.specs.Tally.{IsLogTally, InstallsVersion, Notes, AddsEntry, IsAirTally, IsAirTallyUpTo, AddsAir};

use crate::kinds::EntryKind;
use mate_journal::{Air, Aired, Entry, Stamped};
use mate_num::{HandlerId, NoMemory};
use std::alloc::Global;

/// How many entries of each kind there are.
#[derive(Clone, Copy)]
pub struct EntryCounts {
    pub posts: u64,
    pub drops: u64,
    pub halts: u64,
    pub faults: u64,
    pub installs: u64,
}

impl EntryCounts {
    /// How many entries are of a kind.
    pub fn of(&self, kind: EntryKind) -> u64
        ensures { result ≡ entries_counted kind self.now }
    {
        match kind {
            EntryKind::Post => self.posts,
            EntryKind::Drop => self.drops,
            EntryKind::Halt => self.halts,
            EntryKind::Fault => self.faults,
            EntryKind::Install => self.installs,
        }
    }

    /// Counts an entry.
    pub fn add(&mut self, entry: &Entry)
        requires { CountsUpTo (2 ^ 63 + 2 ^ 57) self.old }
        ensures posts { self.new.posts ≡ self.old.posts + one_if (is_entry kinds.Post entry.now) }
        ensures drops { self.new.drops ≡ self.old.drops + one_if (is_entry kinds.Drop entry.now) }
        ensures halts { self.new.halts ≡ self.old.halts + one_if (is_entry kinds.Halt entry.now) }
        ensures faults { self.new.faults ≡ self.old.faults + one_if (is_entry kinds.Fault entry.now) }
        ensures installs { self.new.installs ≡ self.old.installs + one_if (is_entry kinds.Install entry.now) }
    {
        match entry {
            Entry::Post { .. } => self.posts += 1,
            Entry::Dropped { .. } => self.drops += 1,
            Entry::Halt { .. } => self.halts += 1,
            Entry::Fault { .. } => self.faults += 1,
            Entry::Install { .. } => self.installs += 1,
            _ => {}
        }
    }
}

/// The greatest version that was installed for a handler, and the last one; 0 for none.
#[derive(Clone, Copy)]
pub struct Versions {
    pub newest: u32,
    pub last: u32,
}

/// What is counted of a node's log: its entries, those of each kind, and the versions of each handler.
#[derive(Drop)]
pub struct LogTally {
    pub entries: u64,
    pub counts: EntryCounts,
    pub versions: Vec<Versions>,
}

impl LogTally {
    /// The counts of an empty log, for `handlers` handlers. `NoMemory` is the only refusal.
    pub fn new(alloc: Global, handlers: usize) -> Result<LogTally, NoMemory>
        ensures { IfOk result (λ tally. IsLogTally handlers tally []) }
    {
        let mut versions = Vec::new(alloc);
        for _handler in 0..handlers {
            versions.push(Versions { newest: 0, last: 0 })?;
        }
        Ok(LogTally {
            entries: 0,
            counts: EntryCounts {
                posts: 0,
                drops: 0,
                halts: 0,
                faults: 0,
                installs: 0,
            },
            versions,
        })
    }

    /// Counts entries that come after those that were counted.
    pub fn add_all(&mut self, entries: &[Stamped])
        requires { IsUpTo (2 ^ 63) self.old }
        ensures tallies { (handlers : ℕ) (front : List StampedEntry) → IsLogTally handlers self.old front
            → IsLogTally handlers self.new (front ++ entries.now) }
        ensures up { (n : ℕ) → IsUpTo n self.old → IsUpTo (n + 2 ^ 57) self.new }
    {
        for stamped in entries {
            self.add(&stamped.entry);
        }
    }

    /// Counts an entry.
    fn add(&mut self, entry: &Entry)
        requires { IsUpTo (2 ^ 63 + 2 ^ 57) self.old }
        ensures { AddsEntry self.old self.new entry.now }
    {
        self.entries += 1;
        self.counts.add(entry);
        note(&mut self.versions, entry);
    }

    /// The versions of a handler.
    pub fn versions_at(&self, handler: HandlerId) -> Versions
        ensures { result ≡ versions_at handler.0 self.now.versions.items }
    {
        match self.versions.get(usize::from(handler.0)) {
            Some(versions) => *versions,
            None => Versions { newest: 0, last: 0 },
        }
    }
}

/// A version that was installed for a handler.
#[derive(Clone, Copy)]
struct Installed {
    handler: HandlerId,
    version: u32,
}

/// What an entry installs, if it does.
fn install_of(entry: &Entry) -> Option<Installed>
    ensures { result ≡ install_told entry.now }
{
    match entry {
        Entry::Install {
            handler,
            version,
            ..
        } => Some(Installed {
            handler: *handler,
            version: *version,
        }),
        _ => None,
    }
}

/// Records what the entry installs.
fn note(versions: &mut Vec<Versions>, entry: &Entry)
    ensures { Notes versions.old.items versions.new.items entry.now }
{
    match install_of(entry) {
        Some(installed) => install(versions, installed),
        None => {}
    }
}

/// Records that a version is installed for a handler, if the machine has it.
fn install(versions: &mut Vec<Versions>, installed: Installed)
    ensures { InstallsVersion versions.old.items versions.new.items installed.handler.0 installed.version }
{
    let at = usize::from(installed.handler.0);
    if at < versions.len() {
        let before = versions[at];
        versions[at] = newer(before, installed.version);
    }
}

/// The versions after one more install.
fn newer(before: Versions, version: u32) -> Versions
    ensures { result ≡ with_version before version }
{
    Versions {
        newest: before.newest.max(version),
        last: version,
    }
}

/// What is counted of the air: its records, and those of each kind.
#[derive(Clone, Copy)]
pub struct AirTally {
    pub records: u64,
    pub sent: u64,
    pub got: u64,
    pub lost: u64,
}

impl AirTally {
    /// The counts of no records.
    pub fn new() -> AirTally
        ensures { IsAirTally result [] }
    {
        AirTally {
            records: 0,
            sent: 0,
            got: 0,
            lost: 0,
        }
    }

    /// Counts records that come after those that were counted.
    pub fn add_all(&mut self, air: &[Aired])
        requires { IsAirTallyUpTo (2 ^ 63) self.old }
        ensures tallies { (front : List AirRecord) → IsAirTally self.old front → IsAirTally self.new (front ++ air.now) }
        ensures up { (n : ℕ) → IsAirTallyUpTo n self.old → IsAirTallyUpTo (n + 2 ^ 57) self.new }
    {
        for aired in air {
            self.add(&aired.air);
        }
    }

    /// Counts a record.
    fn add(&mut self, air: &Air)
        requires { IsAirTallyUpTo (2 ^ 63 + 2 ^ 57) self.old }
        ensures { AddsAir self.old self.new air.now }
    {
        self.records += 1;
        match air {
            Air::Sent { .. } => self.sent += 1,
            Air::Got { .. } => self.got += 1,
            Air::Lost { .. } => self.lost += 1,
            _ => {}
        }
    }
}

pub(crate) fn one_if(is: bool) -> u64
    ensures value { result ≡ one_if is }
    ensures most { result ≤ 1 }
{
    if is { 1 } else { 0 }
}
