//! The scanner, which reads a text from the left, in one pass, and cuts it into tokens.

ghost use Rattle.std.specs.Prelude.{◌≡◌, ◌≤◌, ◌+◌, length};
ghost use Rattle.mate_files.specs.declared.files.TheConstants.{FILE_MAX};

use crate::fault::TokenFault;
use crate::spans::{
    begins_with_letter, blank_len, digits_len, is_blank, is_digit, is_letter, line_len,
    literal_value, name_len, name_text, sign, word,
};
use mate_num::{Items, NAME_MAX};
use std::alloc::Global;
use ts_trees::{Dialect, Token, TokenKind, Tokens};

// How many tokens are kept at most if the rest is only tested.
const KEPT: usize = 256;

/// What is left of a text, and the tokens before it.
#[derive(Drop)]
pub struct Scanner<'a> {
    dialect: Dialect,
    pub(crate) rest: &'a [u8],
    /// The place of the rest, in bytes from the start of the text.
    place: u32,
    pub(crate) tokens: Tokens,
    ghost in_range: { place + length rest.now ≤ FILE_MAX },
}

impl<'a> Scanner<'a> {
    ghost use Rattle.std.specs.Prelude.{◌≡◌, ◌≤◌, ◌==◌, length, Some, slice_get, take, MatchResult};
    ghost use Rattle.ts_trees.specs.Cut.{is_blank, begins_name, is_digit, token, kind_in, cut_in};
    ghost use Rattle.ts_trees.specs.declared.token.TokenKind.{TokenKind as Kind};
    ghost use Rattle.ts_lexer.specs.Spans.{BeginsWith, begins_sign};
    ghost use Rattle.ts_lexer.specs.Scanner.{due, TakesBytes, Appends, Moves, Steps, EndsScan, LooksThrough, Forgets};

    /// Nothing read yet: the whole text is left.
    pub(crate) fn new(alloc: Global, dialect: Dialect, bytes: &'a [u8]) -> Scanner<'a>
        requires { length bytes.now ≤ FILE_MAX }
        ensures { due result ≡ cut_in dialect bytes.now }
    {
        Scanner {
            dialect,
            rest: bytes,
            place: 0,
            tokens: Items::new(alloc),
        }
    }

    /// The tokens that were read so far.
    pub fn tokens(&self) -> &Tokens
        ensures { result.now ≡ self.now.tokens }
    {
        &self.tokens
    }

    /// Whether nothing is left of the text.
    pub fn is_done(&self) -> bool
        ensures { result ≡ (length self.now.rest.now == 0) }
    {
        self.rest.is_empty()
    }

    /// All tokens of the text, or its first fault.
    pub fn finish(self) -> Result<Tokens, TokenFault>
        ensures { EndsScan (due self.entry) result }
    {
        let mut scanner = self;
        while let Some(first) = scanner.rest.first() {
            scanner.step(*first)?;
        }
        Ok(scanner.tokens)
    }

    /// Looks for the first fault of what is left of the text, and keeps at most `KEPT` tokens of it at a time.
    pub fn look_through(self) -> Result<(), TokenFault>
        ensures { LooksThrough (due self.entry) result }
    {
        let mut scanner = self;
        while let Some(first) = scanner.rest.first() {
            scanner.step(*first)?;
            scanner.forget();
        }
        Ok(())
    }

    /// Forgets the tokens if there are many.
    fn forget(&mut self)
        ensures { Forgets self.old self.new }
    {
        if self.tokens.len() < KEPT {
            return;
        }
        self.tokens.cut(0);
    }

    /// Reads blanks, a comment or a token; `first` is its first byte. It is inlined into the loops that call it: a source has many
    /// blanks, and a call costs more than to skip one.
    #[inline(always)]
    pub(crate) fn step(&mut self, first: u8) -> Result<(), TokenFault>
        requires { slice_get self.old.rest.now 0 ≡ Some first }
        ensures { Steps self.old self.new result }
    {
        if is_blank(first) {
            self.blank();
            return Ok(());
        }
        if first == b'!' {
            self.comment();
            return Ok(());
        }
        if is_letter(first) {
            return self.word();
        }
        if is_digit(first) {
            return self.number();
        }
        self.sign()
    }

    /// Skips a run of blanks. Most runs are of one byte, so more of it is looked for only if what follows is no sign, letter or digit.
    fn blank(&mut self)
        requires { BeginsWith is_blank self.old.rest.now }
        ensures { Moves self.old self.new }
    {
        self.take(1);
        if let [b'\0'..=b' ', ..] = self.rest {
            self.more_blanks();
        }
    }

    /// Skips the rest of a run of blanks, if there is more of it. It is called, and not inlined, since few blanks come here.
    #[inline(never)]
    fn more_blanks(&mut self)
        ensures same { due self.new ≡ due self.old }
        ensures rest { length self.new.rest.now ≤ length self.old.rest.now }
    {
        let len = blank_len(self.rest);
        self.take(len);
    }

    /// Skips a comment. The LF after it stays, as a blank.
    fn comment(&mut self)
        requires { BeginsWith (λ b. b == 33) self.old.rest.now }
        ensures { Moves self.old self.new }
    {
        let len = line_len(self.rest);
        self.take(len);
    }

    /// Reads a name or a keyword.
    fn word(&mut self) -> Result<(), TokenFault>
        requires { BeginsWith begins_name self.old.rest.now }
        ensures { Steps self.old self.new result }
    {
        let from = self.place;
        let len = name_len(self.rest);
        if len > NAME_MAX {
            let place = from + NAME_MAX as u32;
            return Err(TokenFault::BadByte { place });
        }
        let text = name_text(self.take(len));
        self.push(word(self.dialect, text), from)
    }

    /// Reads a literal.
    fn number(&mut self) -> Result<(), TokenFault>
        requires { BeginsWith is_digit self.old.rest.now }
        ensures { Steps self.old self.new result }
    {
        let from = self.place;
        let len = digits_len(self.rest);
        let Some(value) = literal_value(self.take(len)) else {
            return Err(TokenFault::BigLiteral { place: from });
        };
        if begins_with_letter(self.rest) {
            return Err(TokenFault::BadByte { place: self.place });
        }
        self.push(TokenKind::Num(value), from)
    }

    /// Reads a sign.
    fn sign(&mut self) -> Result<(), TokenFault>
        requires { BeginsWith begins_sign self.old.rest.now }
        ensures { Steps self.old self.new result }
    {
        let from = self.place;
        let Some((kind, len)) = sign(self.rest) else {
            return Err(TokenFault::BadByte { place: from });
        };
        self.take(len);
        self.push(kind, from)
    }

    /// Takes `len` bytes off the rest.
    fn take(&mut self, len: usize) -> &'a [u8]
        requires { len ≤ length self.old.rest.now }
        ensures bytes { result.now ≡ take len self.old.rest.now }
        ensures takes { TakesBytes self.old self.new len }
    {
        let (taken, rest) = self.rest.split_at(len);
        self.rest = rest;
        self.place += len as u32;
        taken
    }

    /// Appends the token from `from` up to the rest, of a kind of the dialect.
    fn push(&mut self, kind: TokenKind, from: u32) -> Result<(), TokenFault>
        ensures { (plain : Kind) → kind ≡ kind_in self.old.dialect plain
            → MatchResult result (λ _. Appends self.old self.new (token plain from self.old.place)) (λ e. e ≡ TokenFault.NoMemory) }
    {
        let to = self.place;
        self.tokens.push(Token { kind, from, to })?;
        Ok(())
    }
}
