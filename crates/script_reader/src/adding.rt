//! What a line adds to the world so far.

ghost use Rattle.std.specs.Prelude.{◌≡◌, ◌<◌, false, length, IfErr, OnOk, option_map};
ghost use Rattle.mate_num.specs.declared.bounds.TheConstants.{FUNCTIONS_MAX, NODES_MAX};
ghost use Rattle.script_steps.specs.World.{with_values};
ghost use Rattle.script_reader.specs.WorldLines.{SaysLink, SaysSeries, SaysPlanned};
ghost use Rattle.script_reader.specs.Draft.{world_progress_of, world_said_of, AreTables};
ghost use Rattle.script_reader.specs.WorldScript.{newest_with, with_told, HasPlace};

use crate::{Command, Draft, Stage};
use mate_num::{FUNCTIONS_MAX, HANDLERS_MAX, NODES_MAX, NoMemory, Text};
use script_steps::{Link, Planned, ScriptFault, Series, SeriesList, What, note_newest};

/// Adds what a line says. After `NoMemory` nothing is said of the world so far.
pub fn take(draft: &mut Draft, command: Command<'_>) -> Result<(), ScriptFault>
    requires fits { HasPlace (world_progress_of draft.old) (world_said_of command) }
    requires tables { AreTables draft.old.linked draft.old.places draft.old.world }
    ensures value { OnOk result (world_progress_of draft.new ≡ with_told (world_progress_of draft.old) (world_said_of command.entry)) }
    ensures tables { OnOk result (AreTables draft.new.linked draft.new.places draft.new.world) }
    ensures refused { IfErr result (λ fault. fault ≡ ScriptFault.NoMemory) }
{
    match command {
        Command::Nodes(nodes) => {
            draft.world.nodes = nodes;
            draft.stage = Stage::Random;
        }
        Command::Random(random) => {
            draft.world.random = random;
            draft.stage = Stage::Until;
        }
        Command::Until(until) => {
            draft.world.until = until;
            draft.stage = Stage::Settings;
        }
        Command::Suppress(on) => draft.world.suppress = on,
        Command::Link { link, both } => join(draft, link, both)?,
        Command::Series(series) => give(draft, series)?,
        Command::Plan { planned, file } => plan(draft, planned, file)?,
    }
    Ok(())
}

// Adds a link, and if `both` is true the one back as well.
fn join(draft: &mut Draft, link: Link, both: bool) -> Result<(), NoMemory>
    requires from { link.from < NODES_MAX }
    requires to { link.to < NODES_MAX }
    requires tables { AreTables draft.old.linked draft.old.places draft.old.world }
    ensures value { OnOk result (world_progress_of draft.new ≡ with_told (world_progress_of draft.old) (SaysLink link both)) }
    ensures tables { OnOk result (AreTables draft.new.linked draft.new.places draft.new.world) }
{
    join_one(draft, link)?;
    if both {
        join_one(
            draft,
            Link {
                from: link.to,
                to: link.from,
                loss: link.loss,
            },
        )?;
    }
    Ok(())
}

fn join_one(draft: &mut Draft, link: Link) -> Result<(), NoMemory>
    requires from { link.from < NODES_MAX }
    requires to { link.to < NODES_MAX }
    requires tables { AreTables draft.old.linked draft.old.places draft.old.world }
    ensures value { OnOk result (world_progress_of draft.new ≡ with_told (world_progress_of draft.old) (SaysLink link false)) }
    ensures tables { OnOk result (AreTables draft.new.linked draft.new.places draft.new.world) }
{
    draft.linked[link.from as usize * NODES_MAX + link.to as usize] = true;
    draft.world.links.push(link)
}

// Adds the values to their series, or a new one.
fn give(draft: &mut Draft, series: Series) -> Result<(), NoMemory>
    requires node { series.node < NODES_MAX }
    requires fun { series.fun.0 < FUNCTIONS_MAX }
    requires tables { AreTables draft.old.linked draft.old.places draft.old.world }
    ensures value { OnOk result (world_progress_of draft.new ≡ with_told (world_progress_of draft.old) (SaysSeries series)) }
    ensures tables { OnOk result (AreTables draft.new.linked draft.new.places draft.new.world) }
{
    let pair = series.node as usize * FUNCTIONS_MAX + series.fun.0 as usize;
    let place = draft.places[pair];
    if place == 0 {
        draft.world.series.push(series)?;
        draft.places[pair] = draft.world.series.len();
        Ok(())
    } else {
        append_all(&mut draft.world.series, place - 1, series.values.as_slice())
    }
}

fn plan(draft: &mut Draft, planned: Planned, file: Option<&str>) -> Result<(), NoMemory>
    requires tables { AreTables draft.old.linked draft.old.places draft.old.world }
    ensures value { OnOk result (world_progress_of draft.new
        ≡ with_told (world_progress_of draft.old) (SaysPlanned planned (option_map (λ f. f.now) file.entry))) }
    ensures tables { OnOk result (AreTables draft.new.linked draft.new.places draft.new.world) }
{
    if let Some(file) = file {
        let name = Text::of(draft.alloc, file)?;
        draft.world.files.push(name)?;
    }
    draft.stage = Stage::Events;
    draft.time = planned.time;
    note_version(&mut draft.newest, &planned.what);
    draft.world.events.push(planned)
}

// Notes the version of an injection.
fn note_version(newest: &mut [u32; HANDLERS_MAX], what: &What)
    ensures { newest.new ≡ newest_with newest.old what.now }
{
    if let What::Inject {
        handler,
        version,
        ..
    } = what
    {
        note_newest(newest, *handler, *version);
    }
}

// Puts more values behind those of the series at a place.
fn append_all(series: &mut SeriesList, place: usize, values: &[i16]) -> Result<(), NoMemory>
    requires { place < length series.old }
    ensures { OnOk result (series.new ≡ with_values place values.now series.old) }
{
    for value in values {
        series.append(place, *value)?;
    }
    Ok(())
}
