//! Lines that are read, one after another, as a report.

ghost use Rattle.std.specs.Prelude.{◌≡◌, ◌⊎◌, Err, IfOk, false};
ghost use Rattle.report_text.specs.declared.fault.TextFault.TheVariants.{BadLine, NoMemory};

use mate_journal::{Air, Report};
use mate_num::Stamp;
use report_line_reader::{Bulk, LightLine, LightTold};
use report_text::parts::Parts;
use report_text::place::{Place, admits_next};
use report_text::{LastLine, TextFault, one_verdict_holds, read};
use std::alloc::Global;
use vm_shape::Description;

/// The place after one entry of a node, in the event of number 0.
fn place_at(time: u32) -> Place
    ensures { result ≡ record { stamp = record { event = 0; time = time }; node = 0; on_air = false; only_shown = false; several = false } }
{
    Place {
        stamp: Stamp { event: 0, time },
        node: 0,
        on_air: false,
        only_shown: false,
        several: false,
    }
}

pub fn the_air_does_not_stand_behind_an_entry() -> bool
    ensures { result ≡ false }
{
    let bulk = Bulk::new();
    let line = LightLine {
        stamp: Stamp { event: 0, time: 70 },
        node: 0,
        told: LightTold::OnAir(Air::Keep),
    };
    admits_next(&Some(place_at(70)), &line, &bulk)
}

pub fn times_do_not_fall() -> bool
    ensures { result ≡ false }
{
    let bulk = Bulk::new();
    let line = LightLine {
        stamp: Stamp { event: 1, time: 60 },
        node: 0,
        told: LightTold::OnAir(Air::Keep),
    };
    admits_next(&Some(place_at(70)), &line, &bulk)
}

/// A packet that is lost on its way to node 5 is of a run with more than five nodes.
pub fn a_receiver_is_one_of_the_nodes(alloc: Global, desc: &Description) -> Result<bool, TextFault>
    ensures { IfOk result (λ fits. fits ≡ false) }
{
    let _ = desc;
    let mut parts = Parts::new(alloc)?;
    let bulk = Bulk::new();
    let line = LightLine {
        stamp: Stamp { event: 0, time: 0 },
        node: 0,
        told: LightTold::OnAir(Air::Lost { number: 1, to: 5 }),
    };
    parts.take(line, &bulk)?;
    let last = LastLine {
        whole: true,
        records: 1,
        events: 0,
        nodes: 5,
    };
    Ok(parts.fits_last(&last))
}

pub fn what_stands_behind_the_last_line_is_the_bad_line(
    alloc: Global,
    desc: &Description,
) -> Result<Report, TextFault>
    ensures { (result ≡ Err (BadLine 2)) ⊎ (result ≡ Err NoMemory) }
{
    one_verdict_holds();
    read(alloc, desc, b"end 0 5 1\n\n")
}
