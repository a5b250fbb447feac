//! The form of names, and names that are in a list twice.

ghost use Rattle.std.specs.Prelude.{◌≡◌, IfSome, IsTrue};
ghost use Rattle.std.specs.List.{list_all};
ghost use Rattle.vm_shape.specs.Names.{begins_name, continues_name, is_keyword, has_form, is_name, name_of, stands_in, first_repeat};

use mate_num::{NAME_MAX, Name};

/// The name that reads `text`; None if it doesn't have a name's form.
pub fn name_of(text: &str) -> Option<Name>
    ensures value { result ≡ name_of text.now }
    ensures form { IfSome result (λ name. IsTrue (is_name name)) }
{
    if is_name(text) { Name::new(text) } else { None }
}

/// Whether `text` has a name's form: 1 to `NAME_MAX` bytes, a letter or `_` first, then letters, digits
/// or `_`, and no keyword.
fn is_name(text: &str) -> bool
    ensures { result ≡ is_name text.now }
{
    has_form(text.as_bytes()) && !is_keyword(text)
}

fn has_form(bytes: &[u8]) -> bool
    ensures { result ≡ has_form bytes.now }
{
    match bytes {
        [] => false,
        [first, rest @ ..] => rest.len() < NAME_MAX && begins_name(*first) && continue_name(rest),
    }
}

fn continue_name(bytes: &[u8]) -> bool
    ensures { result ≡ list_all continues_name bytes.now }
{
    bytes.iter().all(|c| continues_name(*c))
}

fn begins_name(c: u8) -> bool
    ensures { result ≡ begins_name c }
{
    (b'A' <= c && c <= b'Z') || (b'a' <= c && c <= b'z') || c == b'_'
}

fn continues_name(c: u8) -> bool
    ensures { result ≡ continues_name c }
{
    begins_name(c) || (b'0' <= c && c <= b'9')
}

fn is_keyword(word: &str) -> bool
    ensures { result ≡ is_keyword word.now }
{
    matches!(
        word,
        "shared"
            | "private"
            | "buffer"
            | "if"
            | "then"
            | "else"
            | "end"
            | "for"
            | "to"
            | "step"
            | "next"
            | "while"
            | "and"
            | "or"
            | "not"
            | "size"
            | "clear"
            | "msg"
    )
}

/// Whether `name` is among `names`.
fn stands_in(names: &[Name], name: &Name) -> bool
    ensures { result ≡ stands_in names.now name.now }
{
    names.iter().any(|other| name == other)
}

/// The first name that comes earlier in the list, too; None if each is there once.
pub fn first_repeat(names: &[Name]) -> Option<Name>
    ensures { result ≡ first_repeat names.now }
{
    for (index, name) in names.iter().enumerate() {
        if stands_in(&names[..index], name) {
            return Some(name.copy());
        }
    }
    None
}
