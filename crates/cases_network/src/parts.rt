//! The parts of a world, as text.

use script_steps::{Link, Planned, Series, What, World};
use std::alloc::{AllocError, Global};

/// All but the names of the files.
pub fn parts_of(alloc: Global, world: &World) -> Result<String, AllocError> {
    let suppress = if world.suppress { "on" } else { "off" };
    let mut text = format!(in alloc;
        "nodes {} random {} until {} suppress {suppress} links",
        world.nodes, world.random, world.until
    )?;
    push_links(alloc, &mut text, world.links.as_slice())?;
    text.push_str(" series")?;
    push_series(alloc, &mut text, world.series.as_slice())?;
    text.push_str(" events")?;
    push_events(alloc, &mut text, world.events.as_slice())?;
    text.push_str(" files")?;
    Ok(text)
}

fn push_links(alloc: Global, text: &mut String, links: &[Link]) -> Result<(), AllocError> {
    for link in links {
        let link = format!(in alloc; " {}>{}:{}", link.from, link.to, link.loss)?;
        text.push_str(link.as_str())?;
    }
    Ok(())
}

fn push_series(alloc: Global, text: &mut String, all: &[Series]) -> Result<(), AllocError> {
    for series in all {
        text.push_str(series_text(alloc, series)?.as_str())?;
    }
    Ok(())
}

fn push_events(alloc: Global, text: &mut String, events: &[Planned]) -> Result<(), AllocError> {
    for planned in events {
        text.push_str(event_text(alloc, planned)?.as_str())?;
    }
    Ok(())
}

fn series_text(alloc: Global, series: &Series) -> Result<String, AllocError> {
    let values = values_text(alloc, series.values.as_slice())?;
    format!(in alloc; " {}.{}={values}", series.node, series.fun.0)
}

fn event_text(alloc: Global, planned: &Planned) -> Result<String, AllocError> {
    let what = what_text(alloc, &planned.what)?;
    format!(in alloc; " {}@{}:{what}", planned.time, planned.node)
}

fn what_text(alloc: Global, what: &What) -> Result<String, AllocError> {
    match what {
        What::Inject {
            program,
            handler,
            version,
        } => format!(in alloc; "inject({program},{},{version})", handler.0),
        What::Post { handler, payload } => {
            let values = values_text(alloc, payload.as_slice())?;
            format!(in alloc; "post({};{values})", handler.0)
        }
        What::Show => "show".to_string(alloc),
        What::Reset => "reset".to_string(alloc),
        What::Noise { bytes } => {
            let bytes = bytes_text(alloc, bytes.as_slice())?;
            format!(in alloc; "noise({bytes})")
        }
    }
}

fn values_text(alloc: Global, values: &[i16]) -> Result<String, AllocError> {
    let mut text = String::new(alloc);
    for (index, value) in values.iter().enumerate() {
        if index > 0 {
            text.push_str(",")?;
        }
        let value = format!(in alloc; "{value}")?;
        text.push_str(value.as_str())?;
    }
    Ok(text)
}

fn bytes_text(alloc: Global, bytes: &[u8]) -> Result<String, AllocError> {
    let mut text = String::new(alloc);
    for (index, byte) in bytes.iter().enumerate() {
        if index > 0 {
            text.push_str(",")?;
        }
        let byte = format!(in alloc; "{byte}")?;
        text.push_str(byte.as_str())?;
    }
    Ok(text)
}
