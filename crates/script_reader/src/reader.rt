//! The reader of the scripts of worlds.

ghost use Rattle.std.specs.Prelude.{◌≡◌, ◌<◌, ◌≤◌, ◌^◌, false, length, IfOk, OnOk, replicate};
ghost use Rattle.mate_files.specs.declared.files.TheConstants.{FILE_MAX};
ghost use Rattle.script_steps.specs.Lines.{split_words};
ghost use Rattle.script_steps.specs.Script.{AnswersScript, FollowsLine};
ghost use Rattle.script_steps.specs.World.{IsRightWorld};
ghost use Rattle.script_reader.specs.Draft.{world_progress_of, KeepsWorld, AreTables};
ghost use Rattle.script_reader.specs.declared.draft.TheConstants.{PAIRS, PLACES};
ghost use Rattle.script_reader.specs.WorldScript.{after_world_line, world_script_in, world_at_end, no_world};

use crate::adding::take;
use crate::draft::{PAIRS, PLACES};
use crate::{Command, Draft, Refusal, Stage};
use mate_num::{HANDLERS_MAX, Items};
use script_steps::{Cause, Lines, ScriptFault, SeriesList, Words, World};
use std::alloc::Global;
use vm_shape::Description;

/// The world that the script in `bytes`, of at most `FILE_MAX` bytes, plans.
///
/// The lines that aren't empty and don't begin with `#` are `nodes N`, `random S` and `until MS`, then settings
/// (`suppress on`, `suppress off`, `link A B LOSS`, `both A B LOSS`, `series NODE FUN V ..`), then events
/// (`at T inject NODE HANDLER VERSION FILE`, `at T post NODE HANDLER V ..`, `at T show NODE`, `at T reset NODE`,
/// `at T noise NODE HEX`).
pub fn world_script(alloc: Global, desc: &Description, bytes: &[u8]) -> Result<World, ScriptFault>
    requires { length bytes.now ≤ FILE_MAX }
    ensures value { AnswersScript result (world_script_in desc.now bytes.now) }
    ensures right { IfOk result (λ world. IsRightWorld desc.now world) }
{
    let mut draft = begun(alloc);
    let mut lines = Lines::of(bytes);
    let mut number = 1;
    'lines: while let Some(line) = lines.next() {
        read_line(&mut draft, desc, number, line)?;
        number += 1;
    }
    finish(draft, number)
}

// Nothing yet.
fn begun(alloc: Global) -> Draft
    ensures value { world_progress_of result ≡ no_world }
    ensures tables { AreTables result.linked result.places result.world }
{
    Draft {
        alloc,
        stage: Stage::Nodes,
        world: World {
            nodes: 1,
            random: 0,
            until: 1,
            suppress: true,
            links: Items::new(alloc),
            series: SeriesList::new(alloc),
            events: Items::new(alloc),
            files: Items::new(alloc),
        },
        time: 0,
        newest: [0; HANDLERS_MAX],
        linked: no_links(),
        places: no_places(),
    }
}

// Reads a line.
#[tactic(auto, unfolding(crate::specs::WorldScript::after_world_line))]
fn read_line(
    draft: &mut Draft,
    desc: &Description,
    number: u32,
    line: &[u8],
) -> Result<(), ScriptFault>
    requires count { length draft.old.world.events < number }
    requires files { length draft.old.world.files < number }
    requires small { number < 2 ^ 32 }
    requires keeps { KeepsWorld desc.now (world_progress_of draft.old) }
    requires tables { AreTables draft.old.linked draft.old.places draft.old.world }
    ensures value { FollowsLine (after_world_line desc.now (world_progress_of draft.old) (split_words line.now)) number result
        (world_progress_of draft.new) }
    ensures count { OnOk result (length draft.new.world.events ≤ number) }
    ensures files { OnOk result (length draft.new.world.files ≤ number) }
    ensures keeps { OnOk result (KeepsWorld desc.now (world_progress_of draft.new)) }
    ensures tables { OnOk result (AreTables draft.new.linked draft.new.places draft.new.world) }
{
    let mut words = Words::of(line);
    if words.is_skipped() {
        return Ok(());
    }
    let mut said = Command::Suppress(true);
    match draft.command(desc, &mut words, &mut said) {
        Ok(()) => take(draft, said),
        Err(Refusal::Bad(cause)) => Err(ScriptFault::BadLine {
            line: number,
            cause,
        }),
        Err(Refusal::NoMemory) => Err(ScriptFault::NoMemory),
    }
}

// The world, if none of the first three lines is missing.
fn finish(draft: Draft, number: u32) -> Result<World, ScriptFault>
    ensures { result ≡ world_at_end draft.stage number (world_progress_of draft) }
{
    match draft.stage {
        Stage::Nodes | Stage::Random | Stage::Until => Err(ScriptFault::BadLine {
            line: number,
            cause: Cause::Word,
        }),
        Stage::Settings | Stage::Events => Ok(draft.world),
    }
}

fn no_links() -> [bool; PAIRS]
    ensures { result ≡ replicate PAIRS false }
{
    [false; PAIRS]
}

fn no_places() -> [usize; PLACES]
    ensures { result ≡ replicate PLACES 0 }
{
    [0; PLACES]
}
