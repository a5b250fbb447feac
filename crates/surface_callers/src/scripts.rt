//! Scripts of nodes and of worlds: read from bytes, built by hand, or made from a number.

ghost use Rattle.std.specs.Prelude.{◌≤◌, length};
ghost use Rattle.mate_files.specs.declared.files.TheConstants.{FILE_MAX};

use mate_num::{ContextId, HandlerId, NoMemory, PacketBytes, Payload, Text, Texts};
use script_reader::{
    Cause, Generated, Link, Links, Plan, Planned, ScriptFault, Series, SeriesList, Step, Steps,
    Values, What, World, generate, node_script, world_script,
};
use std::alloc::Global;
use vm_desc::Description;

/// The script of a node, or the line that is refused.
pub fn read(alloc: Global, desc: &Description, bytes: &[u8]) -> Result<Steps, Option<u32>>
    requires { length bytes.now ≤ FILE_MAX }
{
    match node_script(alloc, desc, bytes) {
        Ok(steps) => Ok(steps),
        Err(fault) => Err(refused_line(fault)),
    }
}

/// The script of a world, or the line that is refused.
pub fn read_world(alloc: Global, desc: &Description, bytes: &[u8]) -> Result<World, Option<u32>>
    requires { length bytes.now ≤ FILE_MAX }
{
    match world_script(alloc, desc, bytes) {
        Ok(world) => Ok(world),
        Err(fault) => Err(refused_line(fault)),
    }
}

fn refused_line(fault: ScriptFault) -> Option<u32> {
    match fault {
        ScriptFault::BadLine { line, cause } => Some(line.max(number_of(cause))),
        ScriptFault::NoMemory => None,
    }
}

fn number_of(cause: Cause) -> u32 {
    match cause {
        Cause::Word | Cause::Number | Cause::Range | Cause::TimeBack => 0,
        Cause::OldVersion | Cause::Name | Cause::Node | Cause::Packet => 1,
    }
}

/// A script that installs a file, runs it, and shows the store.
pub fn a_script(alloc: Global, handler: HandlerId, file: &str) -> Result<Steps, NoMemory> {
    let mut steps = Steps::new(alloc);
    steps.name(file)?;
    steps.push(Step::Install {
        handler,
        version: 1,
        program: 0,
    })?;
    steps.push(Step::Run)?;
    steps.push(Step::Show)?;
    let _files: &[Text] = steps.files();
    Ok(steps)
}

/// The context that a step is of, if it names one.
pub fn context_of(step: &Step) -> Option<ContextId> {
    match step {
        Step::Step { ctx, n: _ } | Step::Answer { ctx, value: _ } => Some(*ctx),
        Step::Install {
            handler: _,
            version: _,
            program: _,
        } => None,
        Step::Load { program: _ } => None,
        Step::Post {
            handler: _,
            payload: _,
        } => None,
        Step::Run | Step::Show | Step::Reset => None,
    }
}

/// How many steps a script has.
pub fn count_of(steps: &Steps) -> usize {
    let all: &[Step] = steps.steps();
    all.len()
}

/// A world of two nodes and a link, in which an event is posted at 1 s, and shown at its end.
pub fn a_world(alloc: Global, handler: HandlerId, payload: Payload) -> Result<World, NoMemory> {
    let mut links = Links::new(alloc);
    links.push(Link {
        from: 0,
        to: 1,
        loss: 300,
    })?;
    let mut events = Plan::new(alloc);
    events.push(Planned {
        time: 1000,
        node: 0,
        what: What::Post { handler, payload },
    })?;
    Ok(World {
        nodes: 2,
        random: 1,
        until: 2000,
        suppress: true,
        links,
        series: SeriesList::new(alloc),
        events,
        files: Texts::new(alloc),
    })
}

/// A list of one series of readings.
pub fn readings(alloc: Global, series: Series) -> Result<(SeriesList, usize), NoMemory> {
    let Series {
        node: _,
        fun: _,
        values,
    } = &series;
    let values: &Values = values;
    let count = values.len();
    let mut list = SeriesList::new(alloc);
    list.push(series)?;
    let _first: Option<&Series> = list.get(0);
    let _all: &[Series] = list.as_slice();
    let _count: usize = list.len();
    Ok((list, count))
}

/// The noise that a line makes, if it makes one.
pub fn noise_of(what: &What) -> Option<&PacketBytes> {
    match what {
        What::Noise { bytes } => Some(bytes),
        What::Inject {
            program: _,
            handler: _,
            version: _,
        } => None,
        What::Post {
            handler: _,
            payload: _,
        } => None,
        What::Show | What::Reset => None,
    }
}

/// How many nodes the world of a number has, and sources.
pub fn made(alloc: Global, desc: &Description, number: u64) -> Result<(u8, usize), NoMemory> {
    let Generated { world, sources } = generate(alloc, desc, number)?;
    Ok((world.nodes, sources.len()))
}
