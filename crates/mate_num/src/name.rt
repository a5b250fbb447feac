//! Names of handlers, functions, variables, buffers and devices.

ghost use Rattle.std.specs.Prelude.{◌≡◌, ℕ, ◌<◌, ◌≤◌, ◌==◌, List, [], length, MatchOption, IsUtf8, IfOk, Some};
ghost use Rattle.std.specs.Cmp.{partial_equiv_from_equiv};
ghost use Rattle.std.specs.Cmp.Lexicographic.{pointwise, nat_list_eq_equiv};
ghost use Rattle.mate_num.specs.Names.{IsName};
ghost use Rattle.mate_num.specs.declared.bounds.TheConstants.{NAME_MAX};

use crate::bounds::NAME_MAX;
use std::fmt;
use std::marker::Model;

/// A text of at most `NAME_MAX` bytes. Contracts see its bytes.
#[derive(Drop)]
pub struct Name {
    // The text's bytes, and any others after them. A name is small, since a source's tokens and trees hold many.
    bytes: [u8; NAME_MAX],
    // How many of them are the text's.
    len: u8,
}

impl Model for Name {
    ghost use Rattle.std.specs.Prelude.{◌≡◌, ◌≤◌, ℕ, List, length, take, IsUtf8};
    ghost use Rattle.mate_num.specs.declared.bounds.TheConstants.{NAME_MAX};

    ghost Value = { List ℕ };

    ghost view = { λ n. take n.len n.bytes };

    ghost invariant = { λ n. (n.len ≤ NAME_MAX) × (length n.bytes ≡ NAME_MAX) × IsUtf8 (take n.len n.bytes) };
}

impl Name {
    /// The name that reads `text`; None exactly if `text` has more than `NAME_MAX` bytes.
    pub fn new(text: &str) -> Option<Name>
        ensures { MatchOption result (NAME_MAX < length text.now) (λ name. name ≡ text.now) }
    {
        let text = text.as_bytes();
        if text.len() > NAME_MAX {
            return None;
        }
        let mut bytes = [0; NAME_MAX];
        bytes[..text.len()].copy_from_slice(text);
        Some(Name {
            bytes,
            len: text.len() as u8,
        })
    }

    /// The name that these bytes spell; None exactly if they are more than `NAME_MAX` or not UTF-8.
    pub fn of_bytes(bytes: &[u8]) -> Option<Name>
        ensures { MatchOption result (¬ (IsName bytes.now)) (λ name. IsName bytes.now × (name ≡ bytes.now)) }
    {
        match str::from_utf8(bytes) {
            Ok(text) => Name::new(text),
            Err(_) => None,
        }
    }

    pub fn as_bytes(&self) -> &[u8]
        ensures value { result.now ≡ self.now }
        ensures fits { length self.now ≤ NAME_MAX }
    {
        &self.bytes[..self.len as usize]
    }

    pub fn as_str(&self) -> &str
        ensures value { result.now ≡ self.now }
        ensures fits { length self.now ≤ NAME_MAX }
    {
        let Ok(text) = str::from_utf8(&self.bytes[..self.len as usize]) else {
            unreachable!()
        };
        text
    }

    /// The same name again. It takes no memory.
    pub fn copy(&self) -> Name
        ensures { result ≡ self.now }
    {
        Name {
            bytes: self.bytes,
            len: self.len,
        }
    }
}

/// Two names are equal exactly if their bytes are.
impl PartialEq for Name {
    ghost eq = { pointwise ◌==◌ };

    ghost laws = { partial_equiv_from_equiv nat_list_eq_equiv };

    fn eq(&self, other: &Name) -> bool {
        self.as_bytes() == other.as_bytes()
    }
}

impl Eq for Name {
    ghost laws = { nat_list_eq_equiv };
}

impl Default for Name {
    ghost is_default = { λ n. n ≡ [] };

    fn default() -> Name {
        Name {
            bytes: [0; NAME_MAX],
            len: 0,
        }
    }
}

impl fmt::Display for Name {
    ghost output = { λ n. Some n };

    fn fmt<W: fmt::Write>(&self, f: &mut fmt::Formatter<W>) -> fmt::Result {
        f.write_str(self.as_str())
    }
}
