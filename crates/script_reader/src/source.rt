//! The sources that a generated world injects.

ghost use Rattle.std.specs.Prelude.{◌≡◌, ◌≤◌, IfOk, string_bytes};
ghost use Rattle.std.specs.Option.{option_map};
ghost use Rattle.script_reader.specs.Source.{reads_sensor, first_sensor, source_head, assignment, source_of};

use mate_num::{NoMemory, Text};
use std::alloc::Global;
use vm_shape::{Description, FunKind};

/// The source of a version below 10: `shared S; S = S + F() + V;` with the machine's first shared variable S, its first
/// function F that reads a sensor, and the version V. Without such a function the term `F()` is missing, and without a
/// shared variable the source is empty.
#[tactic(auto, unfolding(crate::specs::Source::source_of))]
pub fn source_of(alloc: Global, desc: &Description, version: u8) -> Result<Text, NoMemory>
    requires { version ≤ 9 }
    ensures value { IfOk result (λ text. text ≡ source_of desc.now version) }
{
    match desc.shared.as_slice() {
        [shared, ..] => {
            let sensor = first_sensor(desc);
            assignment(alloc, shared.as_str(), sensor, version)
        }
        [] => Text::of(alloc, ""),
    }
}

// The name of the first function that reads a sensor.
fn first_sensor(desc: &Description) -> Option<&str>
    ensures { option_map (λ f. f.now) result ≡ first_sensor desc.now.functions.items }
{
    for function in desc.functions.as_slice() {
        if reads_sensor(function.kind) {
            return Some(function.name.as_str());
        }
    }
    None
}

fn reads_sensor(kind: FunKind) -> bool
    ensures { result ≡ reads_sensor kind }
{
    match kind {
        FunKind::Sense => true,
        FunKind::Act { .. } => false,
        FunKind::Send => false,
        FunKind::Id => false,
        FunKind::Rand => false,
        FunKind::Clock => false,
    }
}

// The one statement of a source.
fn assignment(
    alloc: Global,
    shared: &str,
    sensor: Option<&str>,
    version: u8,
) -> Result<Text, NoMemory>
    requires { version ≤ 9 }
    ensures { IfOk result (λ text. text ≡ assignment shared.now (option_map (λ f. f.now) sensor.entry) version) }
{
    let mut text = head(alloc, shared)?;
    if let Some(function) = sensor {
        text.push_str(function)?;
        text.push_str("() + ")?;
    }
    text.push(char::from(b'0' + version))?;
    text.push_str(";")?;
    Text::of(alloc, text.as_str())
}

// What is before the sensor and the digit.
fn head(alloc: Global, shared: &str) -> Result<String, NoMemory>
    ensures { IfOk result (λ text. string_bytes text ≡ source_head shared.now) }
{
    let mut text = String::from_str(alloc, "shared ")?;
    text.push_str(shared)?;
    text.push_str("; ")?;
    text.push_str(shared)?;
    text.push_str(" = ")?;
    text.push_str(shared)?;
    text.push_str(" + ")?;
    Ok(text)
}
