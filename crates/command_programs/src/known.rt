//! Sources that were compiled, by their bytes: a script may name one file many times.

ghost use Rattle.std.specs.Prelude.{◌≡◌, ◌≤◌, [], length, IfOk, IfSome, IsTrue, Ok};
ghost use Rattle.std.specs.Str.{bytes_eq};
ghost use Rattle.mate_files.specs.declared.files.TheConstants.{FILE_MAX};
ghost use Rattle.command_steps.specs.Parts.{ReadsFiles};
ghost use Rattle.command_steps.specs.Sources.{compiled_bytes, source};
ghost use Rattle.command_programs.specs.Known.{AreKnown, IsKnownAt};

use crate::shared_source::SharedSource;
use command_refusals::Refusal;
use command_steps::{compiled_bytes, read_file};
use mate_files::{FILE_MAX, Files};
use std::alloc::Global;
use vm_shape::Description;

/// How many sources are known at most. Those that come first are, and each takes some 1,100 bytes beside its own.
const KNOWN_MAX: usize = 256;

/// How many bytes they have together at most.
const BYTES_MAX: usize = 16 * FILE_MAX;

/// The bytes of a source, and what they gave.
#[derive(Drop)]
pub struct KnownSource {
    bytes: Vec<u8>,
    compiled: SharedSource,
}

/// Sources that were compiled for one machine, either all folded before or none, in the order of `is_before`.
#[derive(Drop)]
pub struct KnownSources {
    sources: Vec<KnownSource>,
    /// How many bytes more they may have.
    room: usize,
    /// Where the last one was that was found: in a script that names one file many times it is the next one, too.
    last: usize,
}

/// The compiled script of a source with its code, folded before it is compiled if `fold` says so. The file is read;
/// it is compiled only if its bytes aren't known.
pub(crate) fn source_of<F: Files>(
    alloc: Global,
    files: &mut F,
    desc: &Description,
    fold: bool,
    known: &mut KnownSources,
    name: &str,
) -> Result<SharedSource, Refusal>
    requires known { AreKnown desc.now fold known.old }
    ensures does { source (record { told = F.contents files.old; steady = F.steady files.old }) desc.now fold name.now result }
    ensures reads { ReadsFiles (F.contents files.old) (F.steady files.old) (F.faults files.old) (F.contents files.new)
        (F.steady files.new) (F.faults files.new) result }
    ensures filled { IfOk result (λ c. 1 ≤ length c.code.items) }
    ensures known { AreKnown desc.now fold known.new }
{
    let bytes = read_file(alloc, files, name)?;
    known.compiled(alloc, desc, fold, name, bytes)
}

/// Whether the source has these bytes.
fn has_bytes(source: &KnownSource, bytes: &[u8]) -> bool
    ensures { result ≡ bytes_eq source.now.bytes.items bytes.now }
{
    source.bytes.as_slice() == bytes
}

/// Whether the source comes before these bytes: short ones come before long ones.
fn is_before(source: &KnownSource, bytes: &[u8]) -> bool {
    if source.bytes.len() == bytes.len() {
        source.bytes.as_slice() < bytes
    } else {
        source.bytes.len() < bytes.len()
    }
}

impl KnownSources {
    /// No source is known. It takes no memory.
    pub(crate) fn new(alloc: Global) -> KnownSources
        ensures { result.sources.items ≡ [] }
    {
        KnownSources {
            sources: Vec::new(alloc),
            room: BYTES_MAX,
            last: 0,
        }
    }

    /// The compiled script of the bytes of the source `name`.
    fn compiled(
        &mut self,
        alloc: Global,
        desc: &Description,
        fold: bool,
        name: &str,
        bytes: Vec<u8>,
    ) -> Result<SharedSource, Refusal>
        requires short { length bytes.items ≤ FILE_MAX }
        requires known { AreKnown desc.now fold self.old }
        ensures does { compiled_bytes desc.now fold name.now bytes.items result }
        ensures filled { IfOk result (λ c. 1 ≤ length c.code.items) }
        ensures known { AreKnown desc.now fold self.new }
    {
        let _fold = fold;
        match self.place_of(bytes.as_slice()) {
            Some(place) => {
                let shared = self.sources[place].compiled.share();
                self.last = place;
                shared
            }
            None => {
                let compiled = compiled_bytes(alloc, desc, fold, name, bytes.as_slice())?;
                let shared = SharedSource::new(alloc, compiled)?;
                self.remember(desc, fold, name, bytes, &shared);
                Ok(shared)
            }
        }
    }

    /// The place of the source with these bytes, if it is known.
    fn place_of(&self, bytes: &[u8]) -> Option<usize>
        ensures { IfSome result (IsKnownAt self.now bytes.now) }
    {
        if self.is_at(self.last, bytes) {
            return Some(self.last);
        }
        let place = self.place_for(bytes);
        if self.is_at(place, bytes) {
            Some(place)
        } else {
            None
        }
    }

    /// Whether the source with these bytes is at the place.
    fn is_at(&self, place: usize, bytes: &[u8]) -> bool
        ensures { IsTrue result → IsKnownAt self.now bytes.now place }
    {
        match self.sources.get(place) {
            Some(source) => has_bytes(source, bytes),
            None => false,
        }
    }

    /// Before which of the known sources one with these bytes comes.
    fn place_for(&self, bytes: &[u8]) -> usize
        ensures { result ≤ length self.now.sources.items }
    {
        self.sources
            .as_slice()
            .partition_point(|source| is_before(source, bytes))
    }

    /// Adds the bytes and what they gave to the known sources, if there is room, and unless memory runs out.
    #[inline(never)]
    fn remember(
        &mut self,
        desc: &Description,
        fold: bool,
        name: &str,
        bytes: Vec<u8>,
        compiled: &SharedSource,
    )
        requires known { AreKnown desc.now fold self.old }
        requires gives { compiled_bytes desc.now fold name.now bytes.items (Ok compiled.now) }
        requires filled { 1 ≤ length compiled.now.code.items }
        ensures { AreKnown desc.now fold self.new }
    {
        let _desc = desc;
        let _fold = fold;
        let _name = name;
        if self.sources.len() >= KNOWN_MAX || bytes.len() > self.room {
            return;
        }
        let Ok(compiled) = compiled.share() else {
            return;
        };
        let place = self.place_for(bytes.as_slice());
        self.room -= bytes.len();
        let mut bytes = bytes;
        bytes.shrink_to_fit();
        let _ = self.sources.insert(place, KnownSource { bytes, compiled });
    }
}
