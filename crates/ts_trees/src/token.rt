//! The tokens of a source.

use mate_num::{Items, Name};

/// What a token is: a keyword, a sign, a name or a literal.
#[derive(Drop)]
pub enum TokenKind {
    Shared,
    Private,
    Buffer,
    If,
    Then,
    Else,
    End,
    For,
    To,
    Step,
    Next,
    While,
    And,
    Or,
    Not,
    Size,
    Clear,
    Msg,
    /// A keyword if a script may have procedures, else a plain name; `Do` likewise.
    Proc,
    Do,
    /// `;`
    Semi,
    /// `,`
    Comma,
    /// `(`
    Open,
    /// `)`
    Close,
    /// `[`
    OpenBox,
    /// `]`
    CloseBox,
    /// `=`
    Eq,
    /// `<>`
    Ne,
    /// `<`
    Lt,
    /// `>`
    Gt,
    /// `<=`
    Le,
    /// `>=`
    Ge,
    /// `+`
    Plus,
    /// `-`
    Minus,
    /// `*`
    Star,
    /// `/`
    Slash,
    /// `%`
    Percent,
    Name(Name),
    /// A literal: a run of digits with this value.
    Num(u16),
}

/// A token; its text is the source from `from` to before `to`, both counted in bytes.
#[derive(Drop)]
pub struct Token {
    pub kind: TokenKind,
    pub from: u32,
    pub to: u32,
}

/// The tokens of a source, in order. Contracts see a list of Token.
pub type Tokens = Items<Token>;
