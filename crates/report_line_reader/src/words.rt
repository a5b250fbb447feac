//! The words of a line, one after another.

ghost use Rattle.std.specs.Prelude.{◌≡◌, ◌≤◌, not, ◌==◌, length};
ghost use Rattle.std.specs.List.{prefix_len};
ghost use Rattle.std.specs.Str.{bytes_eq};

use crate::numbers::{first_numeral, unsigned};
use std::marker::Model;

/// What is left of a line. Contracts see the list of its words: one stands before each space, and one behind the
/// last. A line with two spaces in a row, or with one at its end, has an empty word there.
#[derive(Drop)]
pub struct Words<'a> {
    rest: &'a [u8],
    over: bool,
}

impl<'a> Model for Words<'a> {
    ghost use Rattle.std.specs.Prelude.{List, ℕ};
    ghost use Rattle.report_line_reader.specs.Words.{words_left};

    ghost Value = { List (List ℕ) };

    ghost view = { λ w. words_left w.over w.rest.now };
}

impl<'a> Words<'a> {
    ghost use Rattle.std.specs.Prelude.{[], Some, IsTrue, ◌↔◌};
    ghost use Rattle.std.specs.Option.{option_copied};
    ghost use Rattle.report_line_reader.specs.Words.{words_of, first, rest};
    ghost use Rattle.report_line_reader.specs.Numbers.{unsigned_of};

    /// The words of a line.
    pub fn new(line: &'a [u8]) -> Words<'a>
        ensures { result ≡ words_of line.now }
    {
        Words {
            rest: line,
            over: false,
        }
    }

    /// Takes the next word.
    pub fn next(&mut self) -> Option<&'a [u8]>
        ensures value { option_copied result ≡ first Some self.old }
        ensures left { self.new ≡ rest self.old }
    {
        if self.over {
            return None;
        }
        let bytes = self.rest;
        let length = word_len(bytes);
        if length == bytes.len() {
            self.over = true;
            return Some(bytes);
        }
        self.rest = bytes.split_at(length + 1).1;
        Some(&bytes[..length])
    }

    /// Takes the next word, and gives the number that it tells; None where it tells none below 2^64.
    pub fn next_unsigned(&mut self) -> Option<u64>
        ensures value { result ≡ first unsigned_of self.old }
        ensures left { self.new ≡ rest self.old }
    {
        if self.over {
            return None;
        }
        let bytes = self.rest;
        let Some(numeral) = first_numeral(bytes) else {
            return unsigned(self.next()?);
        };
        if numeral.digits == bytes.len() {
            self.over = true;
            return Some(numeral.number);
        }
        self.rest = bytes.split_at(numeral.digits + 1).1;
        Some(numeral.number)
    }

    /// Whether no word is left.
    pub fn is_empty(&self) -> bool
        ensures { IsTrue result ↔ (self.now ≡ []) }
    {
        self.over
    }
}

/// How many bytes stand before the first space, or before the end where there is none.
fn word_len(bytes: &[u8]) -> usize
    ensures value { result ≡ prefix_len (λ b. not (b == 32)) bytes.now }
    ensures within { result ≤ length bytes.now }
{
    bytes.iter().take_while(|byte| **byte != b' ').count()
}

/// Whether the two are the same bytes. Words are short, so they are compared byte by byte.
pub fn same_bytes(one: &[u8], other: &[u8]) -> bool
    ensures { result ≡ bytes_eq one.now other.now }
{
    if one.len() != other.len() {
        return false;
    }
    for place in 0..one.len() {
        if one[place] != other[place] {
            return false;
        }
    }
    true
}
