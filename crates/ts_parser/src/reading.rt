//! From the bytes of a source to a script.

ghost use Rattle.std.specs.Prelude.{◌≡◌, ◌≤◌, length, IfSome};
ghost use Rattle.mate_files.specs.declared.files.TheConstants.{FILE_MAX};
ghost use Rattle.ts_trees.specs.Cut.{cut_in};
ghost use Rattle.ts_trees.specs.declared.dialect.Dialect.TheVariants.{Procedures};
ghost use Rattle.ts_lexer.specs.Scanner.{due};
ghost use Rattle.ts_parser.specs.Reading.{ReadsScript, ReadsIn, Stays, is_at_end};

use crate::cutting::source_fault;
use crate::fault::SourceFault;
use crate::parser::parse_in;
use std::alloc::Global;
use ts_lexer::{Scanner, first_tokens};
use ts_trees::{Dialect, ProcScript, Script};

// How many tokens are parsed first. If they are refused, the rest is only tested for faults, so that a refused source
// takes little memory.
const FIRST: usize = 4096;

/// The script that a source of at most 1,048,576 bytes spells, or its first refusal: of its tokens over the whole
/// text, as `tokens` gives it, and then of its grammar and depth, as `parse` does. `NoMemory` comes only if memory
/// runs out.
pub fn read(alloc: Global, bytes: &[u8]) -> Result<Script, SourceFault>
    requires { length bytes.now ≤ FILE_MAX }
    ensures { ReadsScript bytes.now result }
{
    match read_in(alloc, Dialect::Plain, bytes) {
        Ok(script) => Ok(Script {
            decls: script.decls,
            body: script.body,
        }),
        Err(fault) => Err(fault),
    }
}

/// The script with procedures that a source spells, whatever its `do` statements call; refusals are those of `read`, by the grammar
/// with `proc` and `do`.
pub fn read_procedures(alloc: Global, bytes: &[u8]) -> Result<ProcScript, SourceFault>
    requires { length bytes.now ≤ FILE_MAX }
    ensures { ReadsIn Procedures bytes.now result }
{
    read_in(alloc, Dialect::Procedures, bytes)
}

fn read_in(alloc: Global, dialect: Dialect, bytes: &[u8]) -> Result<ProcScript, SourceFault>
    requires { length bytes.now ≤ FILE_MAX }
    ensures { ReadsIn dialect bytes.now result }
{
    let scanner = match first_tokens(alloc, dialect, bytes, FIRST) {
        Ok(scanner) => scanner,
        Err(fault) => return Err(source_fault(fault)),
    };
    match first_fault(alloc, dialect, &scanner) {
        Some(fault) => Err(refusal(dialect, bytes, scanner, fault)),
        None => whole(alloc, dialect, bytes, scanner),
    }
}

/// The fault of the first tokens, if it is one whatever follows them; None also if nothing follows.
fn first_fault(alloc: Global, dialect: Dialect, scanner: &Scanner) -> Option<SourceFault>
    ensures { IfSome result (Stays dialect scanner.now.tokens) }
{
    if scanner.is_done() {
        return None;
    }
    let end = u32::MAX;
    let Err(fault) = parse_in(alloc, dialect, scanner.tokens(), end) else {
        return None;
    };
    if is_at_end(fault, end) {
        return None;
    }
    Some(fault)
}

/// Whether the tokens end too early.
fn is_at_end(fault: SourceFault, end: u32) -> bool
    ensures { result ≡ is_at_end end fault }
{
    match fault {
        SourceFault::Unexpected { place } => place == end,
        SourceFault::BadByte { .. }
        | SourceFault::BigLiteral { .. }
        | SourceFault::TooDeep { .. }
        | SourceFault::NoMemory => false,
    }
}

/// The first refusal of a source whose first tokens have this fault: a fault of the rest's bytes comes before it.
fn refusal(dialect: Dialect, bytes: &[u8], scanner: Scanner, fault: SourceFault) -> SourceFault
    requires due { due scanner ≡ cut_in dialect bytes.now }
    requires stays { Stays dialect scanner.tokens fault }
    ensures { ReadsIn dialect bytes.now (Err result) }
{
    let _bytes = bytes;
    match scanner.look_through() {
        Ok(()) => fault,
        Err(first) => source_fault(first),
    }
}

/// What the whole source is read as.
fn whole(
    alloc: Global,
    dialect: Dialect,
    bytes: &[u8],
    scanner: Scanner,
) -> Result<ProcScript, SourceFault>
    requires few { length bytes.now ≤ FILE_MAX }
    requires due { due scanner ≡ cut_in dialect bytes.now }
    ensures { ReadsIn dialect bytes.now result }
{
    match scanner.finish() {
        Ok(tokens) => parse_in(alloc, dialect, &tokens, bytes.len() as u32),
        Err(fault) => Err(source_fault(fault)),
    }
}
