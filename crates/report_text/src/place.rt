//! How far the lines of a report have come: which line may follow those so far.

ghost use Rattle.std.specs.Prelude.{◌≡◌, ◌==◌, not, Some};
ghost use Rattle.report_line_reader.specs.LightLine.{told_with, bulky_line};
ghost use Rattle.report_text.specs.Fits.{is_on_air, is_shown};
ghost use Rattle.report_text.specs.Places.{keeps_order, keeps_node, joins, admits, admits_next, begun_at, place_after};

use mate_num::Stamp;
use report_line_reader::{Bulk, LightLine, LightTold};

/// The last line that was read, and what is known of its event.
#[derive(Clone, Copy)]
pub struct Place {
    pub stamp: Stamp,
    pub node: u8,
    /// The last line is about the air.
    pub on_air: bool,
    /// Each line of the event shows a store.
    pub only_shown: bool,
    /// Two lines of the event are of two nodes.
    pub several: bool,
}

fn is_on_air(told: &LightTold, bulk: &Bulk) -> bool
    ensures { result ≡ is_on_air (told_with bulk.now told.now) }
{
    let _bulk = bulk;
    match told {
        LightTold::OnAir(_) => true,
        LightTold::Made(_) | LightTold::Installed { .. } | LightTold::Shown => false,
    }
}

fn is_shown(told: &LightTold, bulk: &Bulk) -> bool
    ensures { result ≡ is_shown (told_with bulk.now told.now) }
{
    let _bulk = bulk;
    match told {
        LightTold::Shown => true,
        LightTold::OnAir(_) | LightTold::Made(_) | LightTold::Installed { .. } => false,
    }
}

impl Place {
    /// The place after the first line of an event.
    fn begun_at(line: &LightLine, bulk: &Bulk) -> Place
        ensures { result ≡ begun_at (bulky_line bulk.now line.now) }
    {
        Place {
            stamp: line.stamp,
            node: line.node,
            on_air: is_on_air(&line.told, bulk),
            only_shown: is_shown(&line.told, bulk),
            several: false,
        }
    }

    // In one event what happened on the air comes first, and in each of the two parts the numbers of nodes don't fall.
    fn keeps_order(&self, line: &LightLine, bulk: &Bulk) -> bool
        ensures { result ≡ keeps_order self.now (bulky_line bulk.now line.now) }
    {
        if is_on_air(&line.told, bulk) {
            self.on_air && self.node <= line.node
        } else {
            self.on_air || self.node <= line.node
        }
    }

    // All lines of an event are of one node, but for event 0, and for a last event whose lines all show stores.
    fn keeps_node(&self, line: &LightLine, bulk: &Bulk) -> bool
        ensures { result ≡ keeps_node self.now (bulky_line bulk.now line.now) }
    {
        self.stamp.event == 0
            || (!self.several && self.node == line.node)
            || (self.only_shown && is_shown(&line.told, bulk))
    }

    /// Whether a line of the same event may follow those so far.
    fn joins(&self, line: &LightLine, bulk: &Bulk) -> bool
        ensures { result ≡ joins self.now (bulky_line bulk.now line.now) }
    {
        self.stamp.time == line.stamp.time
            && self.keeps_order(line, bulk)
            && self.keeps_node(line, bulk)
    }

    /// Whether a line may follow those so far.
    fn admits(&self, line: &LightLine, bulk: &Bulk) -> bool
        ensures { result ≡ admits self.now (bulky_line bulk.now line.now) }
    {
        if self.stamp.event == line.stamp.event {
            self.joins(line, bulk)
        } else {
            self.stamp.event < line.stamp.event
                && self.stamp.time <= line.stamp.time
                && (self.stamp.event == 0 || !self.several)
        }
    }
}

/// Whether a line may follow those so far; any line may be the first.
pub fn admits_next(place: &Option<Place>, line: &LightLine, bulk: &Bulk) -> bool
    ensures { result ≡ admits_next place.now (bulky_line bulk.now line.now) }
{
    match place {
        Some(place) => place.admits(line, bulk),
        None => true,
    }
}

/// The place after one more line.
pub fn place_after(place: &Option<Place>, line: &LightLine, bulk: &Bulk) -> Place
    ensures { result ≡ place_after place.now (bulky_line bulk.now line.now) }
{
    let begun = Place::begun_at(line, bulk);
    let Some(before) = place else {
        return begun;
    };
    if before.stamp.event != line.stamp.event {
        return begun;
    }
    Place {
        only_shown: before.only_shown && begun.only_shown,
        several: before.several || before.node != line.node,
        ..begun
    }
}
