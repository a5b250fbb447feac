//! The fields of a record, each the next word of a line.

ghost use Rattle.std.specs.Prelude.{◌≡◌, ◌<◌, IfSome};
ghost use Rattle.std.specs.Option.{option_map};
ghost use Rattle.report_line_reader.specs.Words.{first, rest};
ghost use Rattle.report_line_reader.specs.Numbers.{unsigned_of, below_of, value_of, values_after};
ghost use Rattle.report_line_reader.specs.Hex.{image_of, packet_of};
ghost use Rattle.report_line_reader.specs.Names.{handler_of, function_of, context_of};
ghost use Rattle.report_line_reader.specs.Fields.{number_of, node_of, drop_of, fault_of, payload_of};

use crate::hex_words::{image_of, packet_of};
use crate::names::{context_of, function_of, handler_of};
use crate::numbers::value;
use crate::words::Words;
use mate_journal::DropCause;
use mate_num::{ContextId, FaultKind, FunId, HandlerId, Image, NODES_MAX, PacketBytes, Payload};
use vm_shape::Description;

/// A number below 2^64.
pub fn next_event(words: &mut Words) -> Option<u64>
    ensures value { result ≡ first unsigned_of words.old }
    ensures left { words.new ≡ rest words.old }
{
    words.next_unsigned()
}

/// A number below `limit`.
fn next_below(words: &mut Words, limit: u64) -> Option<u64>
    ensures value { result ≡ first (below_of limit) words.old }
    ensures within { IfSome result (λ n. n < limit) }
    ensures left { words.new ≡ rest words.old }
{
    let number = words.next_unsigned()?;
    if number < limit { Some(number) } else { None }
}

/// A number below 2^32.
pub fn next_number(words: &mut Words) -> Option<u32>
    ensures value { result ≡ first number_of words.old }
    ensures left { words.new ≡ rest words.old }
{
    let number = next_below(words, 1 << 32)?;
    Some(number as u32)
}

/// The number of a node, below `NODES_MAX`.
pub fn next_node(words: &mut Words) -> Option<u8>
    ensures value { result ≡ first node_of words.old }
    ensures left { words.new ≡ rest words.old }
{
    let number = next_below(words, NODES_MAX as u64)?;
    Some(number as u8)
}

pub fn next_value(words: &mut Words) -> Option<i16>
    ensures value { result ≡ first value_of words.old }
    ensures left { words.new ≡ rest words.old }
{
    value(words.next()?)
}

pub fn next_handler(desc: &Description, words: &mut Words) -> Option<HandlerId>
    ensures value { result ≡ first (handler_of desc.now) words.old }
    ensures left { words.new ≡ rest words.old }
{
    handler_of(desc, words.next()?)
}

pub fn next_function(desc: &Description, words: &mut Words) -> Option<FunId>
    ensures value { result ≡ first (function_of desc.now) words.old }
    ensures left { words.new ≡ rest words.old }
{
    function_of(desc, words.next()?)
}

pub fn next_context(desc: &Description, words: &mut Words) -> Option<ContextId>
    ensures value { result ≡ first (context_of desc.now) words.old }
    ensures left { words.new ≡ rest words.old }
{
    context_of(desc, words.next()?)
}

pub fn next_image(words: &mut Words) -> Option<Image>
    ensures value { result ≡ first image_of words.old }
    ensures left { words.new ≡ rest words.old }
{
    image_of(words.next()?)
}

pub fn next_packet(words: &mut Words) -> Option<PacketBytes>
    ensures value { result ≡ first packet_of words.old }
    ensures left { words.new ≡ rest words.old }
{
    packet_of(words.next()?)
}

#[tactic(auto, unfolding(crate::specs::Fields::drop_of))]
fn drop_of(word: &[u8]) -> Option<DropCause>
    ensures { result ≡ drop_of word.now }
{
    if b"nocode".as_slice() == word {
        Some(DropCause::NoCode)
    } else if b"busy".as_slice() == word {
        Some(DropCause::AllBusy)
    } else {
        None
    }
}

/// Why an event was dropped.
pub fn next_drop(words: &mut Words) -> Option<DropCause>
    ensures value { result ≡ first drop_of words.old }
    ensures left { words.new ≡ rest words.old }
{
    drop_of(words.next()?)
}

#[tactic(auto, unfolding(crate::specs::Fields::fault_of))]
fn fault_of(word: &[u8]) -> Option<FaultKind>
    ensures { result ≡ fault_of word.now }
{
    if b"divzero".as_slice() == word {
        Some(FaultKind::DivZero)
    } else if b"index".as_slice() == word {
        Some(FaultKind::Index)
    } else if b"bufferfull".as_slice() == word {
        Some(FaultKind::BufferFull)
    } else if b"bufferempty".as_slice() == word {
        Some(FaultKind::BufferEmpty)
    } else if b"overrun".as_slice() == word {
        Some(FaultKind::Overrun)
    } else {
        None
    }
}

/// Why an invocation was stopped.
pub fn next_fault(words: &mut Words) -> Option<FaultKind>
    ensures value { result ≡ first fault_of words.old }
    ensures left { words.new ≡ rest words.old }
{
    fault_of(words.next()?)
}

/// The values that all words tell, at most 10.
pub fn payload(words: &mut Words) -> Option<Payload>
    ensures { result ≡ payload_of words.old }
{
    let mut values = Payload::new();
    while !words.is_empty() {
        let value = next_value(words)?;
        values.try_push(value).ok()?;
    }
    Some(values)
}
