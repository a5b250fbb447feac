//! A line of a report: when and where something happened, and what.

ghost use Rattle.std.specs.Prelude.{◌≡◌, IfSome, IfNone};
ghost use Rattle.report_line_reader.specs.Told.{line_words, IsRightLine, HasLineRanges};
ghost use Rattle.report_line_reader.specs.declared.line.Line.{Line};
ghost use Rattle.report_line_reader.specs.LightLine.{told_with, bulky_line};
ghost use Rattle.report_line_reader.specs.Reading.{line_in};

use crate::light_line::{Bulk, LightLine, LightTold, read_light};
use mate_journal::{Air, Entry};
use mate_num::{HandlerId, Image, Stamp, Store};
use vm_shape::Description;

/// What happened.
#[derive(Drop)]
pub enum Told {
    /// It happened at a node's timer or on the radio.
    OnAir(Air),
    /// An entry of a log, other than an install or a store seen.
    Made(Entry),
    /// A capsule was installed: its handler, its version and its image.
    Installed {
        handler: HandlerId,
        version: u32,
        image: Image,
    },
    /// The shared variables and buffers as they were seen.
    Shown(Store),
}

/// When, on which node, and what.
#[derive(Drop)]
pub struct Line {
    pub stamp: Stamp,
    /// Below `NODES_MAX`.
    pub node: u8,
    pub told: Told,
}

/// The line that bytes spell, without the LF at its end; None if they spell none.
///
/// The line that it gives is written as these bytes again, so no other line is; and no line is written as bytes that spell none.
pub fn line_of(desc: &Description, bytes: &[u8]) -> Option<Line>
    ensures value { result ≡ line_in desc.now bytes.now }
    ensures form { IfSome result (λ l. bytes.now ≡ line_words desc.now l) }
    ensures right { IfSome result (λ l. IsRightLine desc.now l) }
    ensures ranges { IfSome result (λ l. HasLineRanges l) }
    ensures none { IfNone result ((l : Line) → IsRightLine desc.now l → HasLineRanges l → bytes.now ≡ line_words desc.now l → ⊥) }
{
    read_line(desc, bytes)
}

fn read_line(desc: &Description, bytes: &[u8]) -> Option<Line>
    ensures { result ≡ line_in desc.now bytes.now }
{
    let mut bulk = Bulk::new();
    let line = read_light(desc, bytes, &mut bulk)?;
    Some(with_bulk(line, bulk))
}

/// The line, with its image or its store in it.
pub fn with_bulk(line: LightLine, bulk: Bulk) -> Line
    ensures { result ≡ bulky_line bulk line }
{
    let LightLine { stamp, node, told } = line;
    let told = told_with_bulk(told, bulk);
    Line { stamp, node, told }
}

fn told_with_bulk(told: LightTold, bulk: Bulk) -> Told
    ensures { result ≡ told_with bulk told }
{
    let Bulk { image, store } = bulk;
    match told {
        LightTold::OnAir(air) => Told::OnAir(air),
        LightTold::Made(entry) => Told::Made(entry),
        LightTold::Installed { handler, version } => Told::Installed {
            handler,
            version,
            image,
        },
        LightTold::Shown => Told::Shown(store),
    }
}
