//! Programs as a run holds them.

ghost use Rattle.std.specs.Prelude.{◌≡◌, ◌++◌, None, Some, IfOk, OnOk};
ghost use Rattle.mate_journal.specs.declared.program.Program.{Program as Given};

use crate::program::{Program, Programs};
use crate::stored_image::StoredImage;
use mate_num::{HandlerId, Items, NoMemory};
use std::alloc::Global;
use std::marker::Model;
use std::snapshot::Snapshot;
use ts_checked::Checked;

/// A program that takes no more memory than its image has bytes: no run reads a source, so it is known in proofs alone. Contracts see
/// the program.
#[derive(Drop)]
pub struct StoredProgram {
    pub handler: HandlerId,
    /// 1 to 4294967295.
    pub version: u32,
    pub image: StoredImage,
    source: Option<Snapshot<Checked>>,
}

impl Model for StoredProgram {
    ghost use Rattle.std.specs.Option.{option_map};
    ghost use Rattle.std.specs.Coded.{codes};
    ghost use Rattle.mate_journal.specs.declared.program.Program.{Program};
    ghost use Rattle.ts_checked.specs.TreeCode.{coded_script};

    ghost Value = { Program };

    ghost coded = { Prim.hlevel (codes, coded_script) };

    ghost view = { λ p. record { handler = p.handler; version = p.version; source = option_map (λ s. s.value) p.source; image = p.image } };
}

/// Stored programs, in the order of the lines that name their files.
pub type StoredPrograms = Items<StoredProgram>;

impl StoredProgram {
    /// The program of this source. It takes no memory beside its image.
    pub fn compiled(
        handler: HandlerId,
        version: u32,
        source: &Checked,
        image: StoredImage,
    ) -> StoredProgram
        ensures { result ≡ record { handler = handler; version = version; source = Some source.now; image = image } }
    {
        StoredProgram {
            handler,
            version,
            image,
            source: Some(Snapshot::of(source)),
        }
    }

    /// The program of an image that was loaded.
    pub fn loaded(handler: HandlerId, version: u32, image: StoredImage) -> StoredProgram
        ensures { result ≡ record { handler = handler; version = version; source = None; image = image } }
    {
        StoredProgram {
            handler,
            version,
            image,
            source: None,
        }
    }

    /// A copy of the program.
    fn of(alloc: Global, program: &Program) -> Result<StoredProgram, NoMemory>
        ensures { IfOk result (λ stored. stored ≡ program.now) }
    {
        let image = StoredImage::new(alloc, &program.image)?;
        match &program.source {
            Some(source) => Ok(StoredProgram::compiled(
                program.handler,
                program.version,
                source,
                image,
            )),
            None => Ok(StoredProgram::loaded(program.handler, program.version, image)),
        }
    }
}

/// Copies of the programs, for a run.
pub fn stored(alloc: Global, programs: &Programs) -> Result<StoredPrograms, NoMemory>
    ensures { IfOk result (λ stored. stored ≡ programs.now) }
{
    let mut copies = StoredPrograms::new(alloc);
    for program in programs.as_slice() {
        copies.push(StoredProgram::of(alloc, program)?)?;
    }
    Ok(copies)
}
