//! The last line of a report.

ghost use Rattle.std.specs.Prelude.{◌≡◌, IfSome, IfNone};
ghost use Rattle.report_line_reader.specs.Words.{first, rest, only_at_end};
ghost use Rattle.report_line_reader.specs.Numbers.{unsigned_of};
ghost use Rattle.report_text.specs.LastLines.{is_whole_word, last_of_words, last_in, last_words, HasLastRanges};
ghost use Rattle.report_text.specs.declared.last_line.LastLine.{LastLine};

use report_line_reader::Words;
use report_line_reader::numbers::unsigned;

/// What the last line of a report says.
#[derive(Clone, Copy)]
pub struct LastLine {
    /// Whether the run is whole.
    pub whole: bool,
    /// How many records the report has.
    pub records: u64,
    /// The number of the last event that was run.
    pub events: u64,
    /// How many nodes the run has.
    pub nodes: u64,
}

/// The last line that bytes spell, without the LF at its end; None if they spell none.
///
/// The last line that it gives is written as these bytes again, and no last line is written as bytes that spell none.
pub fn last_line_of(bytes: &[u8]) -> Option<LastLine>
    ensures value { result ≡ last_in bytes.now }
    ensures form { IfSome result (λ e. bytes.now ≡ last_words e) }
    ensures ranges { IfSome result HasLastRanges }
    ensures none { IfNone result ((e : LastLine) → HasLastRanges e → bytes.now ≡ last_words e → ⊥) }
{
    read_last(bytes)
}

fn read_last(bytes: &[u8]) -> Option<LastLine>
    ensures { result ≡ last_in bytes.now }
{
    last_of_words(&mut Words::new(bytes))
}

fn last_of_words(words: &mut Words) -> Option<LastLine>
    ensures { result ≡ last_of_words words.old }
{
    let whole = next_whole(words)?;
    let records = next_unsigned(words)?;
    let events = next_unsigned(words)?;
    let nodes = next_unsigned(words)?;
    at_end(
        words,
        LastLine {
            whole,
            records,
            events,
            nodes,
        },
    )
}

/// Whether a word says that a run is whole (`end`) or isn't (`full`); None for another word.
fn is_whole_word(word: &[u8]) -> Option<bool>
    ensures { result ≡ is_whole_word word.now }
{
    if b"end".as_slice() == word {
        Some(true)
    } else if b"full".as_slice() == word {
        Some(false)
    } else {
        None
    }
}

fn next_whole(words: &mut Words) -> Option<bool>
    ensures value { result ≡ first is_whole_word words.old }
    ensures left { words.new ≡ rest words.old }
{
    is_whole_word(words.next()?)
}

fn next_unsigned(words: &mut Words) -> Option<u64>
    ensures value { result ≡ first unsigned_of words.old }
    ensures left { words.new ≡ rest words.old }
{
    unsigned(words.next()?)
}

/// What was read, if no word is left.
fn at_end(words: &Words, last: LastLine) -> Option<LastLine>
    ensures { result ≡ only_at_end last words.now }
{
    if words.is_empty() { Some(last) } else { None }
}
