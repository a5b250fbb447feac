//! What the first bytes of a text are: how long a name, a literal, a comment or a sign is, and what it says.

ghost use Rattle.std.specs.Prelude.{◌≡◌, ◌<◌, ◌≤◌, ◌==◌, not, length, nat_lt, if◌then◌else◌, Some, None};
ghost use Rattle.std.specs.List.{prefix_len};
ghost use Rattle.ts_trees.specs.Cut.{is_blank, begins_name, in_name, is_digit, sign_of, word_kind, kind_in, procedure_kind};
ghost use Rattle.ts_lexer.specs.Spans.{begins, Passes, digits_value, sign_at};
ghost use Rattle.mate_num.specs.declared.bounds.TheConstants.{NAME_MAX};

use mate_num::Name;
use ts_trees::{Dialect, TokenKind};

/// Whether the byte is a space, a tab, CR or LF.
pub fn is_blank(byte: u8) -> bool
    ensures { result ≡ is_blank byte }
{
    matches!(byte, b' ' | b'\t' | b'\r' | b'\n')
}

/// Whether the byte is a letter or `_`.
pub fn is_letter(byte: u8) -> bool
    ensures { result ≡ begins_name byte }
{
    matches!(byte, b'a'..=b'z' | b'A'..=b'Z' | b'_')
}

pub fn is_digit(byte: u8) -> bool
    ensures { result ≡ is_digit byte }
{
    matches!(byte, b'0'..=b'9')
}

/// Whether the bytes begin with a letter or `_`.
pub fn begins_with_letter(bytes: &[u8]) -> bool
    ensures { result ≡ begins begins_name bytes.now }
{
    match bytes.first() {
        Some(first) => is_letter(*first),
        None => false,
    }
}

/// How many of the first bytes are blanks.
pub fn blank_len(bytes: &[u8]) -> usize
    ensures { result ≡ prefix_len is_blank bytes.now }
{
    bytes.iter().take_while(|byte| is_blank(**byte)).count()
}

/// How many of the first bytes can be in a name.
pub fn name_len(bytes: &[u8]) -> usize
    ensures { result ≡ prefix_len in_name bytes.now }
{
    bytes
        .iter()
        .take_while(|byte| is_letter(**byte) || is_digit(**byte))
        .count()
}

/// Bytes that can be in names, as a text. Each is ASCII, so nothing is tested when it runs.
pub fn name_text(bytes: &[u8]) -> &str
    requires { Passes in_name bytes.now }
    ensures { result.now ≡ bytes.now }
{
    unsafe { str::from_utf8_unchecked(bytes) }
}

/// How many of the first bytes are digits.
pub fn digits_len(bytes: &[u8]) -> usize
    ensures { result ≡ prefix_len is_digit bytes.now }
{
    bytes.iter().take_while(|byte| is_digit(**byte)).count()
}

/// How many bytes come before the first LF, or before the end if there is none.
pub fn line_len(bytes: &[u8]) -> usize
    ensures { result ≡ prefix_len (λ b. not (b == 10)) bytes.now }
{
    bytes.iter().take_while(|byte| **byte != b'\n').count()
}

/// The value of digits; None exactly if it is over 65535.
pub fn literal_value(digits: &[u8]) -> Option<u16>
    requires { Passes is_digit digits.now }
    ensures { result ≡ (if nat_lt 65535 (digits_value 0 digits.now) then None else Some (digits_value 0 digits.now)) }
{
    let mut value = 0u16;
    for byte in digits {
        value = value.checked_mul(10)?.checked_add(u16::from(*byte - b'0'))?;
    }
    Some(value)
}

/// The keyword of a dialect that a text spells, or else the name. A text is compared only with the keywords of its length.
pub fn word(dialect: Dialect, text: &str) -> TokenKind
    requires { length text.now ≤ NAME_MAX }
    ensures { result ≡ kind_in dialect (word_kind text.now) }
{
    match text.len() {
        0..=1 => short_word(dialect, text),
        2 => word_of_2(dialect, text),
        3 => word_of_3(dialect, text),
        4 => word_of_4(dialect, text),
        5 => word_of_5(dialect, text),
        6 => word_of_6(dialect, text),
        7 => word_of_7(dialect, text),
        8.. => long_word(dialect, text),
    }
}

fn short_word(dialect: Dialect, text: &str) -> TokenKind
    requires { length text.now < 2 }
    ensures { result ≡ kind_in dialect (word_kind text.now) }
{
    own_word(dialect, text)
}

fn word_of_2(dialect: Dialect, text: &str) -> TokenKind
    requires { length text.now ≡ 2 }
    ensures { result ≡ kind_in dialect (word_kind text.now) }
{
    match text {
        "if" => TokenKind::If,
        "to" => TokenKind::To,
        "or" => TokenKind::Or,
        _ => own_word(dialect, text),
    }
}

fn word_of_3(dialect: Dialect, text: &str) -> TokenKind
    requires { length text.now ≡ 3 }
    ensures { result ≡ kind_in dialect (word_kind text.now) }
{
    match text {
        "end" => TokenKind::End,
        "for" => TokenKind::For,
        "and" => TokenKind::And,
        "not" => TokenKind::Not,
        "msg" => TokenKind::Msg,
        _ => own_word(dialect, text),
    }
}

fn word_of_4(dialect: Dialect, text: &str) -> TokenKind
    requires { length text.now ≡ 4 }
    ensures { result ≡ kind_in dialect (word_kind text.now) }
{
    match text {
        "then" => TokenKind::Then,
        "else" => TokenKind::Else,
        "step" => TokenKind::Step,
        "next" => TokenKind::Next,
        "size" => TokenKind::Size,
        _ => own_word(dialect, text),
    }
}

fn word_of_5(dialect: Dialect, text: &str) -> TokenKind
    requires { length text.now ≡ 5 }
    ensures { result ≡ kind_in dialect (word_kind text.now) }
{
    match text {
        "while" => TokenKind::While,
        "clear" => TokenKind::Clear,
        _ => own_word(dialect, text),
    }
}

fn word_of_6(dialect: Dialect, text: &str) -> TokenKind
    requires { length text.now ≡ 6 }
    ensures { result ≡ kind_in dialect (word_kind text.now) }
{
    match text {
        "shared" => TokenKind::Shared,
        "buffer" => TokenKind::Buffer,
        _ => own_word(dialect, text),
    }
}

fn word_of_7(dialect: Dialect, text: &str) -> TokenKind
    requires { length text.now ≡ 7 }
    ensures { result ≡ kind_in dialect (word_kind text.now) }
{
    match text {
        "private" => TokenKind::Private,
        _ => own_word(dialect, text),
    }
}

fn long_word(dialect: Dialect, text: &str) -> TokenKind
    requires least { 8 ≤ length text.now }
    requires most { length text.now ≤ NAME_MAX }
    ensures { result ≡ kind_in dialect (word_kind text.now) }
{
    own_word(dialect, text)
}

/// What a text that is no keyword of plain TinyScript is in a dialect: if a script may have procedures, `proc` and
/// `do` are keywords.
fn own_word(dialect: Dialect, text: &str) -> TokenKind
    requires { length text.now ≤ NAME_MAX }
    ensures { result ≡ kind_in dialect (TokenKind.Name text.now) }
{
    match dialect {
        Dialect::Plain => name(text),
        Dialect::Procedures => procedure_word(text),
    }
}

fn procedure_word(text: &str) -> TokenKind
    requires { length text.now ≤ NAME_MAX }
    ensures { result ≡ procedure_kind (TokenKind.Name text.now) }
{
    match text {
        "proc" => TokenKind::Proc,
        "do" => TokenKind::Do,
        _ => name(text),
    }
}

fn name(text: &str) -> TokenKind
    requires { length text.now ≤ NAME_MAX }
    ensures { result ≡ TokenKind.Name text.now }
{
    let Some(name) = Name::new(text) else {
        unreachable!()
    };
    TokenKind::Name(name)
}

/// The sign that bytes begin with, and its length: the longest that fits. None if they begin with none.
pub fn sign(bytes: &[u8]) -> Option<(TokenKind, usize)>
    ensures { result ≡ sign_at bytes.now }
{
    match bytes {
        [b'<', b'=', ..] => Some((TokenKind::Le, 2)),
        [b'<', b'>', ..] => Some((TokenKind::Ne, 2)),
        [b'<', ..] => Some((TokenKind::Lt, 1)),
        [b'>', b'=', ..] => Some((TokenKind::Ge, 2)),
        [b'>', ..] => Some((TokenKind::Gt, 1)),
        [first, ..] => Some((short_sign(*first)?, 1)),
        [] => None,
    }
}

/// The sign of one byte that is no beginning of a longer one.
fn short_sign(byte: u8) -> Option<TokenKind>
    ensures { result ≡ sign_of byte }
{
    match byte {
        b';' => Some(TokenKind::Semi),
        b',' => Some(TokenKind::Comma),
        b'(' => Some(TokenKind::Open),
        b')' => Some(TokenKind::Close),
        b'[' => Some(TokenKind::OpenBox),
        b']' => Some(TokenKind::CloseBox),
        b'=' => Some(TokenKind::Eq),
        b'+' => Some(TokenKind::Plus),
        b'-' => Some(TokenKind::Minus),
        b'*' => Some(TokenKind::Star),
        b'/' => Some(TokenKind::Slash),
        b'%' => Some(TokenKind::Percent),
        _ => None,
    }
}
