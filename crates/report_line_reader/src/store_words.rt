//! A store, as a report shows it: `NAME=V` per shared variable, and then `NAME=[V V]` per buffer.

ghost use Rattle.std.specs.Prelude.{◌≡◌, [], codes};
ghost use Rattle.std.specs.Option.{option_copied, option_map};
ghost use Rattle.report_line_reader.specs.Words.{first, rest, only_at_end};
ghost use Rattle.report_line_reader.specs.Stores.{after, closed, shared_value, shared_after, items_after, opened, buffer_of, buffers_after};
ghost use Rattle.report_line_reader.specs.Stores.{store_of};

use crate::numbers::value;
use crate::words::Words;
use arrayvec::ArrayVec;
use mate_num::{BUFFERS_MAX, Name, PAYLOAD_MAX, Payload, SHARED_MAX, Store};
use vm_shape::Description;

/// What stands behind `front` in a word that begins so.
fn after<'a>(front: &[u8], word: &'a [u8]) -> Option<&'a [u8]>
    ensures { option_copied result ≡ after front.now word.now }
{
    let (begin, behind) = word.split_at(front.len().min(word.len()));
    if begin == front { Some(behind) } else { None }
}

/// What stands before a `]` at the end of a word.
fn closed(word: &[u8]) -> Option<&[u8]>
    ensures { option_copied result ≡ closed word.now }
{
    match word {
        [inner @ .., b']'] => Some(inner),
        _ => None,
    }
}

fn shared_value(name: &Name, word: &[u8]) -> Option<i16>
    ensures { result ≡ shared_value name.now word.now }
{
    value(after(b"=", after(name.as_bytes(), word)?)?)
}

/// The value of the next shared variable.
fn next_shared(name: &Name, words: &mut Words) -> Option<i16>
    ensures value { result ≡ first (shared_value name.now) words.old }
    ensures left { words.new ≡ rest words.old }
{
    shared_value(name, words.next()?)
}

/// A value for each shared variable.
fn shared(
    names: &ArrayVec<Name, SHARED_MAX>,
    words: &mut Words,
) -> Option<ArrayVec<i16, SHARED_MAX>>
    ensures { option_map (λ values. (values.items, words.new)) result ≡ shared_after [] names.now.items words.old }
{
    let mut values: ArrayVec<i16, SHARED_MAX> = ArrayVec::new();
    for name in names.as_slice() {
        values.push(next_shared(name, words)?);
    }
    Some(values)
}

/// The values from `begin` on, up to the one with the `]`.
fn items(begin: &[u8], words: &mut Words) -> Option<Payload>
    ensures { option_map (λ values. (values.items, words.new)) result ≡ items_after [] begin.now words.old }
{
    let mut values = Payload::new();
    let mut word = begin;
    while values.len() < PAYLOAD_MAX {
        if let Some(inner) = closed(word) {
            values.push(value(inner)?);
            return Some(values);
        }
        values.push(value(word)?);
        word = words.next()?;
    }
    None
}

/// The values behind a `[`.
fn opened(begin: &[u8], words: &mut Words) -> Option<Payload>
    ensures { option_map (λ values. (values.items, words.new)) result ≡ opened begin.now words.old }
{
    if begin == b"]".as_slice() {
        return Some(Payload::new());
    }
    items(begin, words)
}

/// The values of the next buffer.
fn buffer(name: &Name, words: &mut Words) -> Option<Payload>
    ensures { option_map (λ values. (values.items, words.new)) result ≡ buffer_of name.now words.old }
{
    let begin = after(b"=[", after(name.as_bytes(), words.next()?)?)?;
    opened(begin, words)
}

/// The values of each buffer.
fn buffers(
    names: &ArrayVec<Name, BUFFERS_MAX>,
    words: &mut Words,
) -> Option<ArrayVec<Payload, BUFFERS_MAX>>
    ensures { option_map (λ all. (all.items, words.new)) result ≡ buffers_after [] names.now.items words.old }
{
    let mut all: ArrayVec<Payload, BUFFERS_MAX> = ArrayVec::new();
    for name in names.as_slice() {
        all.push(buffer(name, words)?);
    }
    Some(all)
}

/// The store that all words tell.
pub fn store_of(desc: &Description, words: &mut Words) -> Option<Store>
    ensures { result ≡ store_of desc.now words.old }
{
    let shared = shared(&desc.shared, words)?;
    let buffers = buffers(&desc.buffers, words)?;
    if words.is_empty() {
        Some(Store { shared, buffers })
    } else {
        None
    }
}
