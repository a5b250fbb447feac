//! A view of a report, from what is asked for to what is written.

use crate::request::{Request, Rows, View};
use crate::stop::Stop;
use command_programs::world_of;
use command_steps::machine_of;
use mate_files::{Files, Sink};
use std::alloc::Global;
use std::io::Read;
use view_charts::{draw_spread, draw_store};
use view_records::{Form, Source, ViewFault};
use view_stats::write_stats;
use view_tables::{
    write_bounds, write_calls, write_events, write_spread, write_store_changes, write_waits,
};
use view_timeline::draw_timeline;
use vm_shape::Description;

/// Makes a view of the report that `reader` gives. Files are read first, then the report. Rows are written as they
/// are read; everything else once the report is read whole, so that nothing is written for a report with a bad line.
pub fn view<F: Files, R: Read, S: Sink>(
    alloc: Global,
    request: &Request<'_>,
    files: &mut F,
    reader: R,
    sink: &mut S,
) -> Result<(), Stop>
where
    R: Drop,
{
    let desc = machine_of(alloc, files, request.machine)?;
    let mut source = Source::new(alloc, reader);
    match request.view {
        View::Timeline(window) => draw_timeline(alloc, &desc, &window, &mut source, sink)?,
        View::Chart(window) => draw_store(alloc, &desc, &window, &mut source, sink)?,
        View::Stats { json, window } => {
            write_stats(alloc, &desc, json, &window, &mut source, sink)?
        }
        View::Rows { rows, form } => table(alloc, &desc, rows, form, &mut source, sink)?,
        View::Bounds { world, form } => {
            let world = world_of(alloc, files, &desc, world)?;
            write_bounds(alloc, &desc, form, &world, &mut source, sink)?
        }
        View::Spread { world, window } => {
            let world = match world {
                Some(name) => Some(world_of(alloc, files, &desc, name)?),
                None => None,
            };
            draw_spread(alloc, &desc, world.as_ref(), &window, &mut source, sink)?
        }
    }
    Ok(())
}

fn table<R: Read, S: Sink>(
    alloc: Global,
    desc: &Description,
    rows: Rows,
    form: Form,
    source: &mut Source<R>,
    sink: &mut S,
) -> Result<(), ViewFault> {
    match rows {
        Rows::Events => write_events(alloc, desc, form, source, sink),
        Rows::Spread => write_spread(alloc, desc, form, source, sink),
        Rows::Calls => write_calls(alloc, desc, form, source, sink),
        Rows::Waits => write_waits(alloc, desc, form, source, sink),
        Rows::Store => write_store_changes(alloc, desc, form, source, sink),
    }
}
