//! The lines of a script.

ghost use Rattle.std.specs.Prelude.{◌≡◌, ◌<◌, ◌≤◌, ◌∷◌, [], length, not, ◌==◌, MatchOption, IfSome};
ghost use Rattle.std.specs.List.{prefix_len};
ghost use Rattle.std.specs.Str.Lines.{lines, strip_carriage_return};

use memchr::memchr;
use std::marker::Model;

/// The lines of a text that are still to be read. Contracts see the bytes that are left.
#[derive(Drop)]
pub struct Lines<'a> {
    rest: &'a [u8],
}

impl<'a> Model for Lines<'a> {
    ghost use Rattle.std.specs.Prelude.{List, ℕ};

    ghost Value = { List ℕ };

    ghost view = { λ l. l.rest.now };
}

impl<'a> Lines<'a> {
    /// The lines of `text`.
    pub fn of(text: &'a [u8]) -> Lines<'a>
        ensures { result ≡ text.now }
    {
        Lines { rest: text }
    }

    /// The next line, without its end; None exactly if no line is left.
    pub fn next(&mut self) -> Option<&'a [u8]>
        ensures line { MatchOption result (lines self.old ≡ []) (λ line. lines self.old ≡ line.now ∷ lines self.new) }
        ensures shorter { IfSome result (λ _. length self.new < length self.old) }
    {
        let (line, rest) = self.rest.split_at(line_len(self.rest));
        match rest {
            [_, after @ ..] => {
                self.rest = after;
                Some(without_return(line))
            }
            [] => {
                self.rest = rest;
                if line.is_empty() { None } else { Some(line) }
            }
        }
    }
}

// How many bytes come before the first LF, or before the end if there is none.
fn line_len(text: &[u8]) -> usize
    ensures value { result ≡ prefix_len (λ b. not (b == 10)) text.now }
    ensures fits { result ≤ length text.now }
{
    match memchr(b'\n', text) {
        Some(len) => len,
        None => text.len(),
    }
}

// The line without the one carriage return at its end, if it has one.
fn without_return(line: &[u8]) -> &[u8]
    ensures { result.now ≡ strip_carriage_return line.now }
{
    match line.last() {
        Some(b'\r') => line.split_at(line.len() - 1).0,
        _ => line,
    }
}
