//! A line without its image or store, which is kept beside it, so that the line is short to hand on.

ghost use Rattle.std.specs.Prelude.{◌≡◌, IfSome, IfNone};
ghost use Rattle.std.specs.Option.{option_map};
ghost use Rattle.report_line_reader.specs.Told.{line_words, IsRightLine, HasLineRanges};
ghost use Rattle.report_line_reader.specs.declared.light_line.Bulk.{Bulk};
ghost use Rattle.report_line_reader.specs.declared.line.Line.{Line};
ghost use Rattle.report_line_reader.specs.LightLine.{told_with, bulky_line};
ghost use Rattle.report_line_reader.specs.Reading.{told_of, line_of_words, line_in};

use crate::fields::{next_event, next_node, next_number};
use crate::verb::{next_verb, told_by};
use crate::words::Words;
use arrayvec::ArrayVec;
use mate_journal::{Air, Entry};
use mate_num::{HandlerId, Image, Stamp, Store};
use vm_shape::Description;

/// What happened. The image or the store that it names is in a `Bulk` beside it.
#[derive(Drop)]
pub enum LightTold {
    /// It happened at a node's timer or on the radio.
    OnAir(Air),
    /// An entry of a log, other than an install or a store seen.
    Made(Entry),
    /// The image in the `Bulk` was installed for this handler, as this version.
    Installed { handler: HandlerId, version: u32 },
    /// The store in the `Bulk` was seen.
    Shown,
}

/// When, on which node, and what.
#[derive(Drop)]
pub struct LightLine {
    pub stamp: Stamp,
    /// Below `NODES_MAX`.
    pub node: u8,
    pub told: LightTold,
}

/// The image and the store of a line. One `Bulk` serves for all lines of a text, one after another.
#[derive(Drop)]
pub struct Bulk {
    pub image: Image,
    pub store: Store,
}

impl Bulk {
    /// No bytes and no values.
    pub fn new() -> Bulk {
        Bulk {
            image: ArrayVec::new(),
            store: Store {
                shared: ArrayVec::new(),
                buffers: ArrayVec::new(),
            },
        }
    }
}

/// The line that bytes spell, without the LF at its end; None if they spell none. If the line has an image or a store, it is left in
/// `bulk`.
///
/// It gives what `line_of` gives, but hands on no image and no store, which are a hundred times as long as the rest.
pub fn light_line_of(desc: &Description, bytes: &[u8], bulk: &mut Bulk) -> Option<LightLine>
    ensures value { option_map (bulky_line bulk.new) result ≡ line_in desc.now bytes.now }
    ensures form { IfSome result (λ l. bytes.now ≡ line_words desc.now (bulky_line bulk.new l)) }
    ensures right { IfSome result (λ l. IsRightLine desc.now (bulky_line bulk.new l)) }
    ensures ranges { IfSome result (λ l. HasLineRanges (bulky_line bulk.new l)) }
    ensures none { IfNone result ((l : Line) → IsRightLine desc.now l → HasLineRanges l → bytes.now ≡ line_words desc.now l → ⊥) }
{
    read_light(desc, bytes, bulk)
}

pub(crate) fn read_light(desc: &Description, bytes: &[u8], bulk: &mut Bulk) -> Option<LightLine>
    ensures { option_map (bulky_line bulk.new) result ≡ line_in desc.now bytes.now }
{
    line_of_words(desc, &mut Words::new(bytes), bulk)
}

fn line_of_words(desc: &Description, words: &mut Words, bulk: &mut Bulk) -> Option<LightLine>
    ensures { option_map (bulky_line bulk.new) result ≡ line_of_words desc.now words.old }
{
    let event = next_event(words)?;
    let time = next_number(words)?;
    let node = next_node(words)?;
    let told = told_of(desc, words, bulk)?;
    Some(LightLine {
        stamp: Stamp { event, time },
        node,
        told,
    })
}

#[tactic(auto, unfolding(crate::specs::Reading::told_of))]
fn told_of(desc: &Description, words: &mut Words, bulk: &mut Bulk) -> Option<LightTold>
    ensures { option_map (told_with bulk.new) result ≡ told_of desc.now words.old }
{
    let verb = next_verb(words)?;
    told_by(desc, verb, words, bulk)
}
