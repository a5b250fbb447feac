//! The words that only a world's script has.

ghost use Rattle.std.specs.Prelude.{◌≡◌, ◌<◌, ◌≤◌, length, IfOk, slice_get};
ghost use Rattle.std.specs.Option.{IsSomeAnd};
ghost use Rattle.vm_shape.specs.declared.function.FunKind.TheVariants as kinds;
ghost use Rattle.script_steps.specs.Lines.{split_words};
ghost use Rattle.script_steps.specs.Words.{ReadsWords};
ghost use Rattle.script_steps.specs.World.{IsRightNoise};
ghost use Rattle.script_reader.specs.WorldWords.{a_node, a_time, not_back, if_senses, sensor_of, a_sensor, some_values, if_noise, some_noise};
ghost use Rattle.script_reader.specs.Draft.{ReadsWithMemory};

use crate::refusal::Refusal;
use capsule_codec::{HexFault, from_hex};
use mate_num::{FunId, Items, PACKET_MAX, PacketBytes};
use script_steps::{Cause, Values, Words};
use std::alloc::Global;
use vm_shape::{Description, FunKind};

/// One of `nodes` nodes.
#[tactic(auto, unfolding(crate::specs::WorldWords::a_node))]
pub fn node_in(nodes: u8, words: &mut Words<'_>) -> Result<u8, Cause>
    requires { 1 ≤ nodes }
    ensures value { ReadsWords (λ n. n) (a_node nodes) (split_words words.old) result (split_words words.new) }
    ensures below { IfOk result (λ n. n < nodes) }
{
    let node = words.number(0, u64::from(nodes - 1), Cause::Node)?;
    Ok(node as u8)
}

/// A time up to `until`, and not before `last`.
#[tactic(auto, unfolding(crate::specs::WorldWords::a_time))]
pub fn time_in(until: u32, last: u32, words: &mut Words<'_>) -> Result<u32, Cause>
    ensures value { ReadsWords (λ t. t) (a_time until last) (split_words words.old) result (split_words words.new) }
    ensures high { IfOk result (λ t. t ≤ until) }
    ensures later { IfOk result (λ t. last ≤ t) }
{
    let time = words.number(0, u64::from(until), Cause::Range)?;
    not_back(last, time as u32)
}

fn not_back(last: u32, time: u32) -> Result<u32, Cause>
    ensures value { result ≡ not_back last time }
    ensures same { IfOk result (λ t. t ≡ time) }
    ensures later { IfOk result (λ t. last ≤ t) }
{
    if last <= time {
        Ok(time)
    } else {
        Err(Cause::TimeBack)
    }
}

/// A function of the machine that reads a sensor.
#[tactic(auto, unfolding(crate::specs::WorldWords::a_sensor))]
pub fn sensor_in(desc: &Description, words: &mut Words<'_>) -> Result<FunId, Cause>
    ensures value { ReadsWords (λ f. f) (a_sensor desc.now) (split_words words.old) result (split_words words.new) }
    ensures senses { IfOk result (λ fun. IsSomeAnd (slice_get desc.now.functions.items fun.0) (λ f. f.kind ≡ kinds.Sense)) }
{
    let word = words.plain()?;
    sensor_of(desc, word)
}

fn sensor_of(desc: &Description, word: &[u8]) -> Result<FunId, Cause>
    ensures value { result ≡ sensor_of desc.now word.now }
    ensures senses { IfOk result (λ fun. IsSomeAnd (slice_get desc.now.functions.items fun.0) (λ f. f.kind ≡ kinds.Sense)) }
{
    for (index, function) in desc.functions.as_slice().iter().enumerate() {
        if function.name.as_bytes() == word {
            return if_senses(index as u8, function.kind);
        }
    }
    Err(Cause::Name)
}

fn if_senses(number: u8, kind: FunKind) -> Result<FunId, Cause>
    ensures value { result ≡ if_senses number kind }
    ensures senses { IfOk result (λ fun. (fun.0 ≡ number) × (kind ≡ kinds.Sense)) }
{
    match kind {
        FunKind::Sense => Ok(FunId(number)),
        FunKind::Act { .. } => Err(Cause::Name),
        FunKind::Send => Err(Cause::Name),
        FunKind::Id => Err(Cause::Name),
        FunKind::Rand => Err(Cause::Name),
        FunKind::Clock => Err(Cause::Name),
    }
}

/// One value or more, to the end of the line.
pub fn values_in(alloc: Global, words: &mut Words<'_>) -> Result<Values, Refusal>
    ensures value { ReadsWithMemory (λ vs. vs) some_values (split_words words.old) result (split_words words.new) }
    ensures some { IfOk result (λ vs. 1 ≤ length vs) }
{
    if words.is_done() {
        return Err(Refusal::Bad(Cause::Word));
    }
    let mut values = Items::new(alloc);
    'values: while !words.is_done() {
        let value = words.value()?;
        values.push(value)?;
    }
    Ok(values)
}

/// Bytes that are no packet of the machine, 1 to `PACKET_MAX`, in hexadecimal digits.
#[tactic(auto, unfolding(crate::specs::WorldWords::some_noise))]
pub fn noise_in(desc: &Description, words: &mut Words<'_>) -> Result<PacketBytes, Cause>
    ensures value { ReadsWords (λ b. b) (some_noise desc.now) (split_words words.old) result (split_words words.new) }
    ensures right { IfOk result (λ b. IsRightNoise desc.now b.items) }
{
    let word = words.plain()?;
    match from_hex(word) {
        Ok(bytes) => if_noise(desc, bytes.as_slice()),
        Err(HexFault::BadHex) => Err(Cause::Number),
        Err(HexFault::TooLong) => Err(Cause::Range),
    }
}

fn if_noise(desc: &Description, bytes: &[u8]) -> Result<PacketBytes, Cause>
    ensures value { result ≡ if_noise desc.now bytes.now }
    ensures right { IfOk result (λ b. IsRightNoise desc.now b.items) }
{
    if bytes.is_empty() {
        return Err(Cause::Number);
    }
    if bytes.len() > PACKET_MAX {
        return Err(Cause::Range);
    }
    if packet_codec::decode(desc, bytes).is_ok() {
        return Err(Cause::Packet);
    }
    let Ok(noise) = PacketBytes::try_from(bytes) else {
        unreachable!()
    };
    Ok(noise)
}
