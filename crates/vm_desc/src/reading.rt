//! The description in a text.

ghost use Rattle.std.specs.Prelude.{◌≡◌, IfOk, IsTrue};
ghost use Rattle.toml.specs.View.{table_view};
ghost use Rattle.vm_desc.specs.Fields.{GivesField};
ghost use Rattle.vm_shape.specs.Limits.{is_trickle, is_radio};
ghost use Rattle.vm_shape.specs.Whole.{parts_of};
ghost use Rattle.vm_desc.specs.Reading.{trickle_of, radio_of, opening_at, from_handlers_at, description_at};
ghost use Rattle.vm_desc.specs.Openings.{seen_opening, IsOpening};
ghost use Rattle.vm_desc.specs.Text.{ReadsDescription, description_of};

use crate::fields::{at, names, number, section};
use crate::known::{Place, members_are_known};
use crate::opening::Opening;
use crate::parts::{functions_in, handlers_in, radio_in, trickle_in};
use std::alloc::Global;
use toml::Table;
use vm_shape::rules::{few_contexts, in_time, no_repeat};
use vm_shape::{DescFault, Description, Key, RadioSet, TrickleSet};

/// The description in `bytes`, a TOML document. `DescFault` says when each refusal comes; of several, the first in
/// its order is given. `NoMemory` may come instead of any answer.
pub fn read(alloc: Global, bytes: &[u8]) -> Result<Description, DescFault>
    ensures { ReadsDescription result (description_of bytes.now) }
{
    let Ok(text) = str::from_utf8(bytes) else {
        return Err(DescFault::NotToml);
    };
    let document = match toml::table_from_str(alloc, text) {
        Ok(document) => document,
        Err(fault) if fault.is_memory() => return Err(DescFault::NoMemory),
        Err(_) => return Err(DescFault::NotToml),
    };
    if !members_are_known(Place::Document, &document) {
        return Err(DescFault::BadField { key: Key::Unknown });
    }
    description(&document)
}

#[tactic(auto, unfolding(crate::specs::Reading::description_at))]
fn description(document: &Table) -> Result<Description, DescFault>
    ensures { GivesField parts_of result (description_at (table_view document.now)) }
{
    from_handlers(opening(document)?, document)
}

#[tactic(auto, unfolding(crate::specs::Reading::opening_at))]
fn opening(document: &Table) -> Result<Opening, DescFault>
    ensures value { GivesField seen_opening result (opening_at (table_view document.now)) }
    ensures rules { IfOk result IsOpening }
{
    let vm_id = number(Key::Vm, 0, u32::MAX, None, at(document, "vm"))?;
    let shared = names(Key::Shared, at(document, "shared"))?;
    let buffers = names(Key::Buffers, at(document, "buffers"))?;
    let devices = names(Key::Devices, at(document, "devices"))?;
    let turns = number(
        Key::Turns,
        0,
        1_000_000,
        Some(10_000),
        at(document, "turns"),
    )?;
    let quantum = number(Key::Quantum, 1, 10_000, Some(16), at(document, "quantum"))?;
    Ok(Opening {
        vm_id,
        shared,
        buffers,
        devices,
        turns,
        quantum,
    })
}

#[tactic(auto, unfolding(crate::specs::Reading::trickle_of))]
fn trickle_of(document: &Table) -> Result<TrickleSet, DescFault>
    ensures value { result ≡ trickle_of (table_view document.now) }
    ensures rules { IfOk result (λ t. IsTrue (is_trickle t)) }
{
    trickle_in(section(Key::TrickleImin, at(document, "trickle"))?)
}

#[tactic(auto, unfolding(crate::specs::Reading::radio_of))]
fn radio_of(document: &Table) -> Result<RadioSet, DescFault>
    ensures value { result ≡ radio_of (table_view document.now) }
    ensures rules { IfOk result (λ r. IsTrue (is_radio r)) }
{
    radio_in(section(Key::RadioDelay, at(document, "radio"))?)
}

#[tactic(auto, unfolding(crate::specs::Reading::from_handlers_at, crate::specs::Reading::ruled))]
fn from_handlers(opening: Opening, document: &Table) -> Result<Description, DescFault>
    requires { IsOpening opening }
    ensures { GivesField parts_of result (from_handlers_at (seen_opening opening) (table_view document.now)) }
{
    let Opening {
        vm_id,
        shared,
        buffers,
        devices,
        turns,
        quantum,
    } = opening;
    let handlers = handlers_in(at(document, "handler"))?;
    let functions = functions_in(&devices, at(document, "function"))?;
    let trickle = trickle_of(document)?;
    let radio = radio_of(document)?;
    few_contexts(&handlers)?;
    no_repeat(&shared, &buffers, &devices, &handlers, &functions)?;
    in_time(handlers.len(), trickle, radio)?;
    Ok(Description {
        vm_id,
        handlers,
        functions,
        shared,
        buffers,
        devices,
        turns,
        quantum,
        trickle,
        radio,
    })
}
