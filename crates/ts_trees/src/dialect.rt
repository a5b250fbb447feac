//! TinyScript, and its dialect with procedures.

/// What a source is written in.
#[derive(Clone, Copy)]
pub enum Dialect {
    /// TinyScript, in which `proc` and `do` are names like any other.
    Plain,
    /// TinyScript with procedures, in which `proc` and `do` are keywords.
    Procedures,
}
