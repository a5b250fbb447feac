//! Texts and their tokens.

use cases_files::marked_bytes;
use mate_files::FILE_MAX;
use std::alloc::{AllocError, Global};
use ts_lexer::{TokenFault, tokens};
use ts_trees::{Token, TokenKind};

/// Longer lists of tokens aren't printed.
const PRINTED: usize = 100;

/// The tokens of a text with their places, names quoted; the number of them if they are over 100; or the first fault.
pub fn answer(alloc: Global, case: &str) -> Result<String, AllocError> {
    let bytes = marked_bytes(alloc, case)?;
    if bytes.len() > FILE_MAX {
        return "too long".to_string(alloc);
    }
    match tokens(alloc, bytes.as_slice()) {
        Ok(tokens) if tokens.len() > PRINTED => format!(in alloc; "{} tokens", tokens.len()),
        Ok(tokens) => listed(alloc, tokens.as_slice()),
        Err(TokenFault::BadByte { place }) => format!(in alloc; "byte {place}"),
        Err(TokenFault::BigLiteral { place }) => format!(in alloc; "literal {place}"),
        Err(TokenFault::NoMemory) => "no memory".to_string(alloc),
    }
}

fn listed(alloc: Global, tokens: &[Token]) -> Result<String, AllocError> {
    let mut text = String::new(alloc);
    for token in tokens {
        if !text.is_empty() {
            text.push_str(", ")?;
        }
        text.push_str(shown(alloc, token)?.as_str())?;
    }
    Ok(text)
}

fn shown(alloc: Global, token: &Token) -> Result<String, AllocError> {
    let (from, to) = (token.from, token.to);
    match &token.kind {
        TokenKind::Name(name) => format!(in alloc; "{:?} {from}-{to}", name.as_str()),
        TokenKind::Num(value) => format!(in alloc; "{value} {from}-{to}"),
        kind => format!(in alloc; "{} {from}-{to}", kind_name(kind)),
    }
}

/// The name of a kind of tokens.
fn kind_name(kind: &TokenKind) -> &'static str {
    match kind {
        TokenKind::Shared => "Shared",
        TokenKind::Private => "Private",
        TokenKind::Buffer => "Buffer",
        TokenKind::If => "If",
        TokenKind::Then => "Then",
        TokenKind::Else => "Else",
        TokenKind::End => "End",
        TokenKind::For => "For",
        TokenKind::To => "To",
        TokenKind::Step => "Step",
        TokenKind::Next => "Next",
        TokenKind::While => "While",
        TokenKind::And => "And",
        TokenKind::Or => "Or",
        TokenKind::Not => "Not",
        TokenKind::Size => "Size",
        TokenKind::Clear => "Clear",
        TokenKind::Msg => "Msg",
        TokenKind::Proc => "Proc",
        TokenKind::Do => "Do",
        TokenKind::Semi => "Semi",
        TokenKind::Comma => "Comma",
        TokenKind::Open => "Open",
        TokenKind::Close => "Close",
        TokenKind::OpenBox => "OpenBox",
        TokenKind::CloseBox => "CloseBox",
        TokenKind::Eq => "Eq",
        TokenKind::Ne => "Ne",
        TokenKind::Lt => "Lt",
        TokenKind::Gt => "Gt",
        TokenKind::Le => "Le",
        TokenKind::Ge => "Ge",
        TokenKind::Plus => "Plus",
        TokenKind::Minus => "Minus",
        TokenKind::Star => "Star",
        TokenKind::Slash => "Slash",
        TokenKind::Percent => "Percent",
        TokenKind::Name(_) => "Name",
        TokenKind::Num(_) => "Num",
    }
}
