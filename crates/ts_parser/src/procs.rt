//! Procedures.

ghost use Rattle.std.specs.Prelude.{◌≤◌, ◌<◌, ◌++◌, ◌∷◌, [], List, length, map, IfOk};
ghost use Rattle.ts_trees.specs.Machine.{main, block, decls, proc_word, procedures};
ghost use Rattle.ts_trees.specs.Parsing.{Reads};
ghost use Rattle.ts_parser.specs.Scripts.{LacksDecl, Header, params_due, header_read, Routine, routine_due, routine_read, script_frame};
ghost use Rattle.ts_parser.specs.Scripts.{FewIn};
ghost use Rattle.ts_trees.specs.Seen.{acts_of, procedure_of};
ghost use Rattle.ts_trees.specs.Tree.{Procedure, no_acts};
ghost use Rattle.ts_trees.specs.declared.script.Decl.{Decl};

use std::alloc::Global;
use ts_statements::block;
use ts_trees::expect::{after, ended, name};
use ts_trees::{Block, Dialect, Halt, Proc, Procs, Token, TokenKind, Words};

/// Reads the procedures of a script in a dialect, after its declarations: the procedures, and the tokens from the
/// first one on that begins none.
pub fn procedures_in<'a>(
    alloc: Global,
    dialect: Dialect,
    tokens: &'a [Token],
) -> Result<(Procs, &'a [Token]), Halt<'a>>
    requires { LacksDecl tokens.now }
    ensures reads { Reads {K = List Decl} tokens.now (λ ds. decls dialect ds)
        (λ ps ds. block no_acts (script_frame dialect ds (map procedure_of ps))) result }
    ensures few { IfOk result (λ x. FewIn dialect (map procedure_of x.0)) }
{
    match dialect {
        Dialect::Plain => Ok((Procs::new(alloc), tokens)),
        Dialect::Procedures => procedures(alloc, tokens),
    }
}

fn procedures<'a>(alloc: Global, tokens: &'a [Token]) -> Result<(Procs, &'a [Token]), Halt<'a>>
    ensures { Reads {K = List Decl} tokens.now (λ ds. procedures ds []) (λ ps ds. block no_acts (main ds (map procedure_of ps))) result }
{
    let mut procs = Procs::new(alloc);
    let mut rest = tokens;
    while let Some(behind) = after(rest, &TokenKind::Proc) {
        let (proc, then) = procedure(alloc, behind)?;
        procs.push(proc)?;
        rest = then;
    }
    Ok((procs, rest))
}

/// Reads a procedure, from after `proc`.
fn procedure<'a>(alloc: Global, tokens: &'a [Token]) -> Result<(Proc, &'a [Token]), Halt<'a>>
    ensures reads { Reads {K = List Decl × List Procedure} tokens.now (λ k. proc_word k.0 k.1)
        (λ p k. procedures k.0 (k.1 ++ procedure_of p ∷ [])) result }
    ensures shorter { IfOk result (λ x. length x.1.now < length tokens.now) }
{
    let (word, rest) = ended(name(tokens), &TokenKind::Open)?;
    let (params, rest) = parameters(alloc, rest)?;
    let (body, rest) = routine(alloc, rest)?;
    let procedure = Proc {
        name: word,
        params,
        body,
    };
    Ok((procedure, rest))
}

/// Reads the parameters of a procedure, from after its `(` up to and including its `)`.
fn parameters<'a>(alloc: Global, tokens: &'a [Token]) -> Result<(Words, &'a [Token]), Halt<'a>>
    ensures reads { Reads {K = Header} tokens.now (λ k. params_due k) (λ ws k. header_read k ws) result }
    ensures shorter { IfOk result (λ x. length x.1.now < length tokens.now) }
{
    let mut params = Words::new(alloc);
    if let Some(rest) = after(tokens, &TokenKind::Close) {
        return Ok((params, rest));
    }
    let mut rest = tokens;
    loop {
        let (word, behind) = name(rest)?;
        params.push(word)?;
        let Some(next) = after(behind, &TokenKind::Comma) else {
            return ended(Ok((params, behind)), &TokenKind::Close);
        };
        rest = next;
    }
}

/// Reads the statements of a procedure, and `end proc`.
fn routine<'a>(alloc: Global, tokens: &'a [Token]) -> Result<(Block, &'a [Token]), Halt<'a>>
    ensures reads { Reads {K = Routine} tokens.now (λ k. routine_due k) (λ b k. routine_read k (acts_of b)) result }
    ensures shorter { IfOk result (λ x. length x.1.now ≤ length tokens.now) }
{
    let body = ended(block(alloc, Dialect::Procedures, tokens), &TokenKind::End);
    ended(body, &TokenKind::Proc)
}
