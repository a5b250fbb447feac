//! The handlers, functions and settings that a description's tables give.

ghost use Rattle.std.specs.Prelude.{◌≡◌, ◌≤◌, ◌<◌, ◌*◌, ◌^◌, Some, None, true, length, IfOk, IfSome, IsTrue};
ghost use Rattle.std.specs.List.{list_all, position};
ghost use Rattle.std.specs.Str.{bytes_eq};
ghost use Rattle.toml.specs.View.{array_view, table_view};
ghost use Rattle.mate_num.specs.Shapes.{is_device};
ghost use Rattle.mate_num.specs.declared.bounds.TheConstants.{DEVICES_MAX, FUNCTIONS_MAX, HANDLERS_MAX};
ghost use Rattle.vm_shape.specs.Limits.{is_kind, is_handler, function_args, is_function, is_trickle, is_radio};
ghost use Rattle.vm_desc.specs.Fields.{GivesField, field, word_as, each, seen, seen_table, tables_in, are_tables};
ghost use Rattle.vm_desc.specs.Reading.{handler_kind, with_period, handler_at, handlers_at, fun_kind, with_args, device, function_at, functions_at, trickle_at, radio_at};

use crate::fields::{allowed, at, name, number, tables, taken, within};
use arrayvec::ArrayVec;
use mate_num::{DEVICES_MAX, DeviceId, FUNCTIONS_MAX, HANDLERS_MAX, HOUR, Name};
use toml::value::Array;
use toml::{Table, Value};
use vm_shape::settings::doubled;
use vm_shape::{
    DOUBLINGS_MAX, DescFault, FunKind, Function, Handler, HandlerKind, Key, RadioSet, TrickleSet,
};

/// The handlers in `value`: 1 to `HANDLERS_MAX`.
#[tactic(auto, unfolding(crate::specs::Reading::handlers_at))]
pub fn handlers_in(value: Option<&Value>) -> Result<ArrayVec<Handler, HANDLERS_MAX>, DescFault>
    ensures value { GivesField (λ v. v.items) result (handlers_at (seen value.entry)) }
    ensures some { IfOk result (λ v. 1 ≤ length v.items) }
    ensures few { IfOk result (λ v. length v.items ≤ HANDLERS_MAX) }
    ensures rules { IfOk result (λ v. IsTrue (list_all is_handler v.items)) }
{
    let value = taken(Key::Handler, value)?;
    let items = tables(Key::Handler, HANDLERS_MAX, value)?;
    allowed(Key::Handler, !items.is_empty())?;
    each_handler(items)
}

fn each_handler(items: &Array) -> Result<ArrayVec<Handler, HANDLERS_MAX>, DescFault>
    requires few { length items.now.items ≤ HANDLERS_MAX }
    requires tables { are_tables (array_view items.now) ≡ true }
    ensures value { GivesField (λ v. v.items) result (each handler_at (tables_in (array_view items.now))) }
    ensures count { IfOk result (λ v. length v.items ≡ length items.now.items) }
    ensures rules { IfOk result (λ v. IsTrue (list_all is_handler v.items)) }
{
    let mut handlers: ArrayVec<Handler, HANDLERS_MAX> = ArrayVec::new();
    for item in items {
        let Some(table) = item.as_table() else {
            unreachable!()
        };
        handlers.push(handler_in(table)?);
    }
    Ok(handlers)
}

/// The functions in `value`: at most `FUNCTIONS_MAX`, and none if it is absent.
#[tactic(auto, unfolding(crate::specs::Reading::functions_at))]
pub fn functions_in(
    devices: &ArrayVec<Name, DEVICES_MAX>,
    value: Option<&Value>,
) -> Result<ArrayVec<Function, FUNCTIONS_MAX>, DescFault>
    ensures value { GivesField (λ v. v.items) result (functions_at devices.now.items (seen value.entry)) }
    ensures few { IfOk result (λ v. length v.items ≤ FUNCTIONS_MAX) }
    ensures rules { IfOk result (λ v. IsTrue (list_all (is_function (length devices.now.items)) v.items)) }
{
    match value {
        Some(value) => each_function(
            devices.as_slice(),
            tables(Key::Function, FUNCTIONS_MAX, value)?,
        ),
        None => Ok(ArrayVec::new()),
    }
}

fn each_function(
    devices: &[Name],
    items: &Array,
) -> Result<ArrayVec<Function, FUNCTIONS_MAX>, DescFault>
    requires devices { length devices.now ≤ DEVICES_MAX }
    requires few { length items.now.items ≤ FUNCTIONS_MAX }
    requires tables { are_tables (array_view items.now) ≡ true }
    ensures value { GivesField (λ v. v.items) result (each (function_at devices.now) (tables_in (array_view items.now))) }
    ensures count { IfOk result (λ v. length v.items ≡ length items.now.items) }
    ensures rules { IfOk result (λ v. IsTrue (list_all (is_function (length devices.now)) v.items)) }
{
    let mut functions: ArrayVec<Function, FUNCTIONS_MAX> = ArrayVec::new();
    for item in items {
        let Some(table) = item.as_table() else {
            unreachable!()
        };
        functions.push(function_in(devices, table)?);
    }
    Ok(functions)
}

#[tactic(auto, unfolding(crate::specs::Reading::handler_at))]
fn handler_in(table: &Table) -> Result<Handler, DescFault>
    ensures value { result ≡ handler_at (table_view table.now) }
    ensures rules { IfOk result (λ h. IsTrue (is_handler h)) }
{
    let name = name(Key::HandlerName, at(table, "name"))?;
    let kind = handler_kind(at(table, "kind"))?;
    let contexts = number(Key::HandlerContexts, 1, 4, Some(1), at(table, "contexts"))?;
    let kind = with_period(kind, at(table, "period"))?;
    Ok(Handler {
        name,
        kind,
        contexts: contexts as u8,
    })
}

fn handler_kind(value: Option<&Value>) -> Result<HandlerKind, DescFault>
    ensures { result ≡ field Key.HandlerKind (word_as handler_kind) (Some HandlerKind.Plain) (seen value.entry) }
{
    match value {
        Some(Value::String(word)) => taken(Key::HandlerKind, handler_kind_of(word.as_str())),
        Some(_) => Err(DescFault::BadField {
            key: Key::HandlerKind,
        }),
        None => Ok(HandlerKind::Plain),
    }
}

fn handler_kind_of(word: &str) -> Option<HandlerKind>
    ensures { result ≡ handler_kind word.now }
{
    match word {
        "plain" => Some(HandlerKind::Plain),
        "timer" => Some(HandlerKind::Timer { period: 0 }),
        "receive" => Some(HandlerKind::Receive),
        "once" => Some(HandlerKind::Once),
        _ => None,
    }
}

fn with_period(kind: HandlerKind, value: Option<&Value>) -> Result<HandlerKind, DescFault>
    ensures value { result ≡ with_period kind (seen value.entry) }
    ensures rules { IfOk result (λ k. IsTrue (is_kind k)) }
{
    match (kind, value) {
        (HandlerKind::Timer { .. }, _) => {
            let period = number(Key::HandlerPeriod, 1, HOUR, None, value)?;
            Ok(HandlerKind::Timer { period })
        }
        (_, None) => Ok(kind),
        (_, Some(_)) => Err(DescFault::BadField {
            key: Key::HandlerPeriod,
        }),
    }
}

#[tactic(auto, unfolding(crate::specs::Reading::function_at))]
fn function_in(devices: &[Name], table: &Table) -> Result<Function, DescFault>
    requires { length devices.now ≤ DEVICES_MAX }
    ensures value { result ≡ function_at devices.now (table_view table.now) }
    ensures rules { IfOk result (λ f. IsTrue (is_function (length devices.now) f)) }
{
    let name = name(Key::FunctionName, at(table, "name"))?;
    let kind = fun_kind(at(table, "kind"))?;
    let kind = with_args(kind, at(table, "args"))?;
    let device = device(devices, at(table, "device"))?;
    let latency = number(
        Key::FunctionLatency,
        1,
        60_000,
        Some(1),
        at(table, "latency"),
    )?;
    Ok(Function {
        name,
        kind,
        device,
        latency,
    })
}

fn fun_kind(value: Option<&Value>) -> Result<FunKind, DescFault>
    ensures { result ≡ field Key.FunctionKind (word_as fun_kind) None (seen value.entry) }
{
    match value {
        Some(Value::String(word)) => taken(Key::FunctionKind, fun_kind_of(word.as_str())),
        _ => Err(DescFault::BadField {
            key: Key::FunctionKind,
        }),
    }
}

fn fun_kind_of(word: &str) -> Option<FunKind>
    ensures { result ≡ fun_kind word.now }
{
    match word {
        "sense" => Some(FunKind::Sense),
        "act" => Some(FunKind::Act { args: 0 }),
        "send" => Some(FunKind::Send),
        "id" => Some(FunKind::Id),
        "rand" => Some(FunKind::Rand),
        "clock" => Some(FunKind::Clock),
        _ => None,
    }
}

fn with_args(kind: FunKind, value: Option<&Value>) -> Result<FunKind, DescFault>
    ensures value { result ≡ with_args kind (seen value.entry) }
    ensures rules { IfOk result (λ k. function_args k ≤ 4) }
{
    match (kind, value) {
        (FunKind::Act { .. }, _) => {
            let args = number(Key::FunctionArgs, 0, 4, Some(0), value)?;
            Ok(FunKind::Act { args: args as u8 })
        }
        (_, None) => Ok(kind),
        (_, Some(_)) => Err(DescFault::BadField {
            key: Key::FunctionArgs,
        }),
    }
}

fn device(devices: &[Name], value: Option<&Value>) -> Result<Option<DeviceId>, DescFault>
    requires { length devices.now ≤ DEVICES_MAX }
    ensures value { result ≡ field Key.FunctionDevice (device devices.now) (Some None) (seen value.entry) }
    ensures rules { IfOk result (λ d. IsTrue (is_device (length devices.now) d)) }
{
    let key = Key::FunctionDevice;
    match value {
        Some(Value::String(text)) => match place_of(text.as_str(), devices) {
            Some(place) => Ok(Some(DeviceId(place as u8))),
            None => Err(DescFault::BadField { key }),
        },
        Some(_) => Err(DescFault::BadField { key }),
        None => Ok(None),
    }
}

fn place_of(text: &str, names: &[Name]) -> Option<usize>
    ensures value { result ≡ position (bytes_eq text.now) names.now }
    ensures within { IfSome result (λ n. n < length names.now) }
{
    names.iter().position(|name| text == name.as_str())
}

/// The settings of the Trickle timer in `table`.
#[tactic(auto, unfolding(crate::specs::Reading::trickle_at))]
pub fn trickle_in(table: Option<&Table>) -> Result<TrickleSet, DescFault>
    ensures value { result ≡ trickle_at (seen_table table.entry) }
    ensures rules { IfOk result (λ t. IsTrue (is_trickle t)) }
{
    let imin = number(
        Key::TrickleImin,
        2,
        60_000,
        Some(1_000),
        within(table, "imin"),
    )?;
    allowed(Key::TrickleImin, imin % 2 == 0)?;
    let doublings = number(
        Key::TrickleDoublings,
        0,
        DOUBLINGS_MAX,
        Some(4),
        within(table, "doublings"),
    )?;
    allowed(Key::TrickleDoublings, doubled(imin, doublings) <= HOUR)?;
    let k = number(Key::TrickleK, 1, 255, Some(2), within(table, "k"))?;
    Ok(TrickleSet {
        imin,
        doublings: doublings as u8,
        k: k as u8,
    })
}

/// The settings of the radio in `table`.
#[tactic(auto, unfolding(crate::specs::Reading::radio_at))]
pub fn radio_in(table: Option<&Table>) -> Result<RadioSet, DescFault>
    ensures value { result ≡ radio_at (seen_table table.entry) }
    ensures rules { IfOk result (λ r. IsTrue (is_radio r)) }
{
    let delay = number(Key::RadioDelay, 1, 10_000, Some(5), within(table, "delay"))?;
    let gap = number(Key::RadioGap, 1, 10_000, Some(50), within(table, "gap"))?;
    Ok(RadioSet { delay, gap })
}
