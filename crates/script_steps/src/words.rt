//! The words of a line, read from left to right.

ghost use Rattle.std.specs.Prelude.{◌≡◌, ◌<◌, ◌≤◌, ◌+◌, ◌*◌, ◌^◌, ◌∷◌, [], length, true, not, ◌==◌, IfOk, IfSome, MatchOption, MatchResult, pos};
ghost use Rattle.mate_num.specs.Results.{result_map};
ghost use Rattle.std.specs.Prelude.{neg_ℤ, Ok, Err, drop};
ghost use Rattle.std.specs.List.{prefix_len, list_all, zip};
ghost use Rattle.std.specs.Char.{is_ascii_digit, digit_value};
ghost use Rattle.std.specs.Str.{bytes_eq};
ghost use Rattle.std.specs.Str.Parse.{digits_value};
ghost use Rattle.mate_num.specs.declared.bounds.TheConstants.{PAYLOAD_MAX};
ghost use Rattle.vm_shape.specs.Whole.{context_count};
ghost use Rattle.script_steps.specs.Lines.{is_blank, split_words, is_skipped};
ghost use Rattle.script_steps.specs.Words.{ReadsWords, is_printable, printed, a_word, nothing_more, SpellsNumber, TakesNumeral, AreLeadingDigits, begins_with_word, number_read, within, a_number};
ghost use Rattle.script_steps.specs.Words.{value_read, a_value, a_payload, handler_of, a_handler, newer, a_version, a_context};

use crate::fault::Cause;
use mate_num::{ContextId, HandlerId, PAYLOAD_MAX, Payload};
use std::marker::Model;
use vm_shape::Description;

/// The words of a line that are still to be read. Contracts see the bytes that are left.
#[derive(Drop)]
pub struct Words<'a> {
    rest: &'a [u8],
}

impl<'a> Model for Words<'a> {
    ghost use Rattle.std.specs.Prelude.{List, ℕ};

    ghost Value = { List ℕ };

    ghost view = { λ w. w.rest.now };
}

impl<'a> Words<'a> {
    /// The words of `line`.
    pub fn of(line: &'a [u8]) -> Words<'a>
        ensures { result ≡ line.now }
    {
        Words { rest: line }
    }

    /// The next word, whatever its bytes are.
    pub(crate) fn next(&mut self) -> Option<&'a [u8]>
        ensures { MatchOption result ((split_words self.old ≡ []) × (split_words self.new ≡ [])) (λ w. split_words self.old ≡ w.now
            ∷ split_words self.new) }
    {
        let rest = behind_blanks(self.rest);
        self.cut(rest, word_len(rest))
    }

    // The first word of what is behind the blanks, which has this length.
    #[inline(always)]
    fn cut(&mut self, rest: &'a [u8], len: usize) -> Option<&'a [u8]>
        requires behind { rest.now ≡ drop (prefix_len is_blank self.old) self.old }
        requires word { len ≡ prefix_len (λ b. not (is_blank b)) rest.now }
        requires fits { len ≤ length rest.now }
        ensures { MatchOption result ((split_words self.old ≡ []) × (split_words self.new ≡ [])) (λ w. split_words self.old ≡ w.now
            ∷ split_words self.new) }
    {
        let (word, rest) = rest.split_at(len);
        self.rest = rest;
        if word.is_empty() { None } else { Some(word) }
    }

    /// Whether no word is left.
    pub fn is_done(&self) -> bool
        ensures { result ≡ (length (split_words self.now) == 0) }
    {
        behind_blanks(self.rest).is_empty()
    }

    /// Whether the line says nothing: it has no word, or its first word begins with `#`.
    pub fn is_skipped(&self) -> bool
        ensures { result ≡ is_skipped (split_words self.now) }
    {
        match behind_blanks(self.rest) {
            [first, ..] => *first == b'#',
            [] => true,
        }
    }

    /// The bytes of the next word, of printable characters.
    pub fn plain(&mut self) -> Result<&'a [u8], Cause>
        ensures { ReadsWords (λ w. w.now) a_word (split_words self.old) result (split_words self.new) }
    {
        match self.next() {
            Some(word) => plain(word),
            None => Err(Cause::Word),
        }
    }

    /// The next word, of printable characters.
    pub fn word(&mut self) -> Result<&'a str, Cause>
        ensures { ReadsWords (λ w. w.now) a_word (split_words self.old) result (split_words self.new) }
    {
        match self.next() {
            Some(word) => printed(word),
            None => Err(Cause::Word),
        }
    }

    /// Refuses the line with `Word` if a word is left.
    pub fn finish(&mut self) -> Result<(), Cause>
        ensures { ReadsWords (λ u. u) nothing_more (split_words self.old) result (split_words self.new) }
    {
        if self.is_done() {
            Ok(())
        } else {
            Err(Cause::Word)
        }
    }

    /// A number from `low` to `high`; one that is outside is refused with `outside`, and a word that is none with `Number`.
    #[inline(always)]
    #[tactic(auto, unfolding(crate::specs::Words::a_number))]
    pub fn number(&mut self, low: u64, high: u64, outside: Cause) -> Result<u64, Cause>
        ensures value { ReadsWords (λ n. n) (a_number low high outside) (split_words self.old) result (split_words self.new) }
        ensures low { IfOk result (λ n. low ≤ n) }
        ensures high { IfOk result (λ n. n ≤ high) }
    {
        match self.short_number() {
            Some(number) => in_range(number, low, high, outside),
            None => self.any_number(low, high, outside),
        }
    }

    /// Takes the next word if it is a numeral, and gives its number. None leaves the words as they were; it comes also for a long
    /// numeral. It isn't inlined, so that each caller of `number` tests its own bounds and holds no loop.
    #[inline(never)]
    fn short_number(&mut self) -> Option<u64>
        ensures { MatchOption result (self.new ≡ self.old) (TakesNumeral (split_words self.old) (split_words self.new)) }
    {
        let rest = behind_blanks(self.rest);
        let Leading { number, digits } = leading_number(rest)?;
        let (_, behind) = rest.split_at(digits);
        if begins_with_word(behind) {
            return None;
        }
        self.rest = behind;
        Some(number)
    }

    /// The same as `number`, for a word of any kind.
    #[cold]
    #[inline(never)]
    #[tactic(auto, unfolding(crate::specs::Words::a_number))]
    fn any_number(&mut self, low: u64, high: u64, outside: Cause) -> Result<u64, Cause>
        ensures value { ReadsWords (λ n. n) (a_number low high outside) (split_words self.old) result (split_words self.new) }
        ensures low { IfOk result (λ n. low ≤ n) }
        ensures high { IfOk result (λ n. n ≤ high) }
    {
        let Some(word) = self.next() else {
            return Err(Cause::Word);
        };
        match number_in(word, low, high, outside) {
            Ok(number) => Ok(number),
            Err(cause) => Err(cause_in(word, cause)),
        }
    }

    /// A value of a script, from -32768 to 32767.
    #[tactic(auto, unfolding(crate::specs::Words::a_value))]
    pub fn value(&mut self) -> Result<i16, Cause>
        ensures { ReadsWords (λ v. v) a_value (split_words self.old) result (split_words self.new) }
    {
        match self.short_number() {
            Some(number) => small_value(number),
            None => {
                let word = self.plain()?;
                value_in(word)
            }
        }
    }

    /// The values of the next words: of all that are left, but of ten at most.
    pub fn payload(&mut self) -> Result<Payload, Cause>
        ensures value { ReadsWords (λ p. p) a_payload (split_words self.old) result (split_words self.new) }
        ensures few { IfOk result (λ p. length p.items ≤ PAYLOAD_MAX) }
    {
        let mut values = Payload::new();
        'values: while values.len() < PAYLOAD_MAX && !self.is_done() {
            let value = self.value()?;
            values.push(value);
        }
        Ok(values)
    }

    /// A handler of the machine, by its name.
    #[tactic(auto, unfolding(crate::specs::Words::a_handler))]
    pub fn handler(&mut self, desc: &Description) -> Result<HandlerId, Cause>
        ensures value { ReadsWords (λ h. h) (a_handler desc.now) (split_words self.old) result (split_words self.new) }
        ensures below { IfOk result (λ h. h.0 < length desc.now.handlers.items) }
    {
        let word = self.plain()?;
        handler_of(desc, word)
    }

    /// A version that is newer than `newest`.
    #[tactic(auto, unfolding(crate::specs::Words::a_version))]
    pub fn version(&mut self, newest: u32) -> Result<u32, Cause>
        ensures value { ReadsWords (λ v. v) (a_version newest) (split_words self.old) result (split_words self.new) }
        ensures low { IfOk result (λ v. 1 ≤ v) }
        ensures high { IfOk result (λ v. v ≤ 4294967295) }
        ensures newer { IfOk result (λ v. newest < v) }
    {
        let version = self.number(1, 4_294_967_295, Cause::Range)?;
        newer(newest, version as u32)
    }

    /// The number of a context of the machine.
    #[tactic(auto, unfolding(crate::specs::Words::a_context))]
    pub fn context(&mut self, desc: &Description) -> Result<ContextId, Cause>
        ensures value { ReadsWords (λ c. c) (a_context desc.now) (split_words self.old) result (split_words self.new) }
        ensures below { IfOk result (λ c. c.0 < context_count desc.now) }
    {
        let last = (desc.contexts() - 1) as u64;
        let context = self.number(0, last, Cause::Range)?;
        Ok(ContextId(context as u8))
    }
}

/// Whether the bytes are those of the text, which is short: they are compared one by one.
pub fn spells(bytes: &[u8], text: &str) -> bool
    ensures { result ≡ bytes_eq bytes.now text.now }
{
    is_same(bytes, text.as_bytes())
}

// Whether the bytes are the same. Those of a name or a verb are few: they are compared one by one.
fn is_same(bytes: &[u8], others: &[u8]) -> bool
    ensures { result ≡ bytes_eq bytes.now others.now }
{
    bytes.len() == others.len() && are_same(bytes, others)
}

// Whether the bytes are the same, up to the end of the shorter.
fn are_same(bytes: &[u8], others: &[u8]) -> bool
    ensures { result ≡ list_all (λ p. p.0 == p.1) (zip bytes.now others.now) }
{
    bytes.iter().zip(others).all(|(byte, other)| byte == other)
}

// A space or a tab.
fn is_blank(byte: u8) -> bool
    ensures { result ≡ is_blank byte }
{
    byte == b' ' || byte == b'\t'
}

// What is behind the blanks at the front. Most often there is none, or one space.
fn behind_blanks(bytes: &[u8]) -> &[u8]
    ensures { result.now ≡ drop (prefix_len is_blank bytes.now) bytes.now }
{
    if begins_with_word(bytes) {
        return bytes;
    }
    if let [b' ', rest @ ..] = bytes
        && begins_with_word(rest)
    {
        return rest;
    }
    bytes.split_at(blanks_len(bytes)).1
}

fn blanks_len(bytes: &[u8]) -> usize
    ensures value { result ≡ prefix_len is_blank bytes.now }
    ensures fits { result ≤ length bytes.now }
{
    bytes.iter().take_while(|byte| is_blank(**byte)).count()
}

fn word_len(bytes: &[u8]) -> usize
    ensures value { result ≡ prefix_len (λ b. not (is_blank b)) bytes.now }
    ensures fits { result ≤ length bytes.now }
{
    bytes.iter().take_while(|byte| !is_blank(**byte)).count()
}

fn is_printable(byte: u8) -> bool
    ensures { result ≡ is_printable byte }
{
    33 <= byte && byte <= 126
}

fn are_printable(word: &[u8]) -> bool
    ensures { result ≡ list_all is_printable word.now }
{
    word.iter().all(|byte| is_printable(*byte))
}

// The word, if its characters are printable.
fn plain(word: &[u8]) -> Result<&[u8], Cause>
    ensures { MatchResult result (λ same. printed word.now ≡ Ok same.now) (λ cause. printed word.now ≡ Err cause) }
{
    if are_printable(word) {
        Ok(word)
    } else {
        Err(Cause::Word)
    }
}

// The word as text, if its characters are printable.
fn printed(word: &[u8]) -> Result<&str, Cause>
    ensures { MatchResult result (λ text. printed word.now ≡ Ok text.now) (λ cause. printed word.now ≡ Err cause) }
{
    if !are_printable(word) {
        return Err(Cause::Word);
    }
    let Ok(text) = str::from_utf8(word) else {
        unreachable!()
    };
    Ok(text)
}

fn are_digits(word: &[u8]) -> bool
    ensures { result ≡ list_all is_ascii_digit word.now }
{
    word.iter().all(|byte| byte.is_ascii_digit())
}

// Whether a word begins at the first byte.
fn begins_with_word(bytes: &[u8]) -> bool
    ensures { result ≡ begins_with_word bytes.now }
{
    match bytes {
        [first, ..] => !is_blank(*first),
        [] => false,
    }
}

// The number that the first digits of some bytes spell, and how many digits there are.
#[derive(Clone, Copy)]
struct Leading {
    number: u64,
    digits: usize,
}

// The number that the first digits spell; None if there is no digit, or if there are some 19 or more.
fn leading_number(bytes: &[u8]) -> Option<Leading>
    ensures { IfSome result (AreLeadingDigits bytes.now) }
{
    let mut number = first_digit(bytes)?;
    for place in 1..bytes.len() {
        let digit = bytes[place];
        if !digit.is_ascii_digit() {
            return Some(Leading {
                number,
                digits: place,
            });
        }
        // (then it takes one more digit)
        if number >= 1_000_000_000_000_000_000 {
            return None;
        }
        number = number * 10 + value_of(digit);
    }
    Some(Leading {
        number,
        digits: bytes.len(),
    })
}

// The value of the first byte, if it is a digit.
fn first_digit(bytes: &[u8]) -> Option<u64>
    ensures { IfSome result (λ n. AreLeadingDigits bytes.now (record { number = n; digits = 1 })) }
{
    match bytes {
        [first, ..] if first.is_ascii_digit() => Some(value_of(*first)),
        _ => None,
    }
}

// The number, if it is from `low` to `high`.
fn in_range(number: u64, low: u64, high: u64, outside: Cause) -> Result<u64, Cause>
    ensures value { result ≡ within low high outside (Ok number) }
    ensures low { IfOk result (λ n. low ≤ n) }
    ensures high { IfOk result (λ n. n ≤ high) }
{
    if low <= number && number <= high {
        Ok(number)
    } else {
        Err(outside)
    }
}

// The number that the word spells, None if it has more than 64 bits. A word that isn't one digit or more, and nothing else, is
// refused with `Number`.
fn numeral(word: &[u8]) -> Result<Option<u64>, Cause>
    ensures { MatchResult result (SpellsNumber word.now) (λ cause. number_read word.now ≡ Err cause) }
{
    if word.is_empty() {
        return Err(Cause::Number);
    }
    let mut number = 0;
    for place in 0..word.len() {
        let digit = word[place];
        if !digit.is_ascii_digit() {
            return Err(Cause::Number);
        }
        let Some(longer) = with_digit(number, digit) else {
            return beyond(word);
        };
        number = longer;
    }
    Ok(Some(number))
}

// The same for a word whose first digits are too much.
#[cold]
fn beyond(word: &[u8]) -> Result<Option<u64>, Cause>
    requires some { 0 < length word.now }
    requires large { 2 ^ 64 ≤ digits_value 10 word.now }
    ensures { MatchResult result (SpellsNumber word.now) (λ cause. number_read word.now ≡ Err cause) }
{
    if are_digits(word) {
        Ok(None)
    } else {
        Err(Cause::Number)
    }
}

fn value_of(digit: u8) -> u64
    requires { is_ascii_digit digit ≡ true }
    ensures value { result ≡ digit_value digit }
    ensures small { result ≤ 9 }
{
    (digit - b'0') as u64
}

// The number with one more digit after it; None if it has more than 64 bits.
fn with_digit(number: u64, digit: u8) -> Option<u64>
    requires { is_ascii_digit digit ≡ true }
    ensures { MatchOption result (2 ^ 64 ≤ number * 10 + digit_value digit) (λ n. n ≡ number * 10 + digit_value digit) }
{
    number.checked_mul(10)?.checked_add(value_of(digit))
}

// The first cause for which a word is refused that would be refused with `cause` if its characters were printable.
// Digits are, so a word that spells a number needs no such test.
fn cause_in(word: &[u8], cause: Cause) -> Cause
    ensures { MatchResult (printed word.now) (λ _. result ≡ cause) (λ first. result ≡ first) }
{
    match plain(word) {
        Ok(_) => cause,
        Err(first) => first,
    }
}

// The number from `low` to `high` that the word spells.
fn number_in(word: &[u8], low: u64, high: u64, outside: Cause) -> Result<u64, Cause>
    ensures value { result ≡ within low high outside (number_read word.now) }
    ensures low { IfOk result (λ n. low ≤ n) }
    ensures high { IfOk result (λ n. n ≤ high) }
{
    match numeral(word)? {
        Some(number) => in_range(number, low, high, outside),
        None => Err(outside),
    }
}

fn value_in(word: &[u8]) -> Result<i16, Cause>
    ensures { result ≡ value_read word.now }
{
    match word {
        [] => Err(Cause::Number),
        [b'-', digits @ ..] => negative_in(digits),
        [_, ..] => {
            let size = number_in(word, 0, 32_767, Cause::Range)?;
            Ok(size as i16)
        }
    }
}

// The number as a value.
fn small_value(number: u64) -> Result<i16, Cause>
    ensures { result ≡ result_map pos (within 0 32767 Cause.Range (Ok number)) }
{
    let size = in_range(number, 0, 32_767, Cause::Range)?;
    Ok(size as i16)
}

// What the word spells after a minus.
fn negative_in(digits: &[u8]) -> Result<i16, Cause>
    ensures { result ≡ result_map (λ n. neg_ℤ (pos n)) (within 0 32768 Cause.Range (number_read digits.now)) }
{
    let size = number_in(digits, 0, 32_768, Cause::Range)?;
    Ok((-(size as i32)) as i16)
}

fn handler_of(desc: &Description, word: &[u8]) -> Result<HandlerId, Cause>
    ensures value { result ≡ handler_of desc.now word.now }
    ensures below { IfOk result (λ h. h.0 < length desc.now.handlers.items) }
{
    for (index, handler) in desc.handlers.as_slice().iter().enumerate() {
        if is_same(handler.name.as_bytes(), word) {
            return Ok(HandlerId(index as u8));
        }
    }
    Err(Cause::Name)
}

fn newer(newest: u32, version: u32) -> Result<u32, Cause>
    ensures value { result ≡ newer newest version }
    ensures same { IfOk result (λ v. v ≡ version) }
    ensures newer { IfOk result (λ v. newest < v) }
{
    if newest < version {
        Ok(version)
    } else {
        Err(Cause::OldVersion)
    }
}
