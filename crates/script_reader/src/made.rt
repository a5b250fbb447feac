//! The world of a number, with its sources.

ghost use Rattle.std.specs.Prelude.{◌≡◌, ◌≤◌, ◌++◌, ◌*◌, [], length, replicate, IfOk, OnOk};
ghost use Rattle.mate_num.specs.declared.bounds.TheConstants.{NODES_MAX};
ghost use Rattle.script_reader.specs.Source.{source_of};
ghost use Rattle.script_steps.specs.World.{IsRightWorld};
ghost use Rattle.script_reader.specs.Made.{node_count, made_world, made_sources};

use crate::links::ring;
use crate::made_events::plan_of;
use crate::source::source_of;
use mate_num::{Items, NoMemory, Text, Texts};
use script_steps::{SeriesList, World};
use std::alloc::Global;
use vm_shape::Description;

/// A world, and the sources of its files.
#[derive(Drop)]
pub struct Generated {
    pub world: World,
    /// One source for each of the world's files.
    pub sources: Texts,
}

/// The world of `number` on the machine: 8 to `NODES_MAX` nodes in a ring, two versions of each handler, and 200 posts. Its files
/// have no names; their sources come with it.
pub fn generate(alloc: Global, desc: &Description, number: u64) -> Result<Generated, NoMemory>
    ensures world { IfOk result (λ made. made.world ≡ made_world desc.now number) }
    ensures right { IfOk result (λ made. IsRightWorld desc.now made.world) }
    ensures sources { IfOk result (λ made. made.sources ≡ made_sources desc.now) }
{
    let nodes = node_count(number);
    let handlers = desc.handlers.len() as u8;
    let links = ring(alloc, nodes)?;
    let events = plan_of(alloc, number, handlers, nodes, 200)?;
    let files = unnamed(alloc, 2 * desc.handlers.len())?;
    let sources = sources_of(alloc, desc)?;
    Ok(Generated {
        world: World {
            nodes,
            random: number,
            until: 600_000,
            suppress: true,
            links,
            series: SeriesList::new(alloc),
            events,
            files,
        },
        sources,
    })
}

fn node_count(number: u64) -> u8
    ensures value { result ≡ node_count number }
    ensures low { 8 ≤ result }
    ensures high { result ≤ NODES_MAX }
{
    (8 + number % 57) as u8
}

// So many empty names.
fn unnamed(alloc: Global, count: usize) -> Result<Texts, NoMemory>
    ensures { IfOk result (λ names. names ≡ replicate count []) }
{
    let mut names = Items::new(alloc);
    for _ in 0..count {
        names.push(Text::of(alloc, "")?)?;
    }
    Ok(names)
}

fn sources_of(alloc: Global, desc: &Description) -> Result<Texts, NoMemory>
    ensures { IfOk result (λ sources. sources ≡ made_sources desc.now) }
{
    let mut sources = Items::new(alloc);
    add_sources(alloc, desc, 1, &mut sources)?;
    add_sources(alloc, desc, 2, &mut sources)?;
    Ok(sources)
}

// Adds the source of a version for each handler.
fn add_sources(
    alloc: Global,
    desc: &Description,
    version: u8,
    sources: &mut Texts,
) -> Result<(), NoMemory>
    requires { version ≤ 9 }
    ensures { OnOk result (sources.new ≡ sources.old ++ replicate (length desc.now.handlers.items) (source_of desc.now version)) }
{
    for _ in 0..desc.handlers.len() {
        sources.push(source_of(alloc, desc, version)?)?;
    }
    Ok(())
}
