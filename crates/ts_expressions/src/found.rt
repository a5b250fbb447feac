//! What a part of the parser found: as a new node, and together with another part.

ghost use Rattle.std.specs.Prelude.{◌≡◌, ◌∷◌, ◌++◌, [], Ok, MatchResult};
ghost use Rattle.ts_trees.specs.Parsing.{Ended};
ghost use Rattle.ts_trees.specs.declared.halt.Halt.TheVariants as halt;
ghost use Rattle.ts_trees.specs.declared.token.TokenKind.TheVariants as kind;
ghost use Rattle.ts_expressions.specs.Boxed.{boxed_tree};
ghost use Rattle.ts_expressions.specs.Finding.{Made, Joined, MadeCall};

use crate::node::{call, two};
use std::alloc::{AllocError, Global};
use ts_checked::BinOp;
use ts_trees::expect::ended;
use ts_trees::{Args, Expr, Halt, Token, TokenKind, Word};

/// What a part of the parser found, and the tokens after it. It is boxed at once, so that recursive functions need little stack.
pub type Found<'a> = Result<(Box<Expr>, &'a [Token]), Halt<'a>>;

/// A node that was made, and the tokens after it.
pub fn made<'a>(node: Result<Box<Expr>, AllocError>, rest: &'a [Token]) -> Found<'a>
    ensures { Made node rest.now result }
{
    Ok((node?, rest))
}

/// Two parts with an operator between them, the right one as it was found.
pub fn joined<'a>(alloc: Global, op: BinOp, left: Box<Expr>, right: Found<'a>) -> Found<'a>
    ensures { Joined op (boxed_tree left) right.entry result }
{
    match right {
        Ok((right, rest)) => made(two(alloc, op, left, right), rest),
        Err(halt) => {
            discard(left);
            Err(halt)
        }
    }
}

/// A call of a function with its arguments as they were read. It isn't inlined: the places that it needs would be on the
/// stack while each argument is read.
#[inline(never)]
pub fn called<'a>(
    alloc: Global,
    function: Word,
    read: Result<(Args, &'a [Token]), Halt<'a>>,
) -> Found<'a>
    ensures { MadeCall function read.entry result }
{
    let (args, rest) = read?;
    made(call(alloc, function, args), rest)
}

/// Drops a part that was found before the parser stopped. It isn't inlined: to drop a node takes it out of its box, and the
/// parser is recursive.
#[inline(never)]
pub fn discard(_part: Box<Expr>) {}

/// Drops arguments that were found before the parser stopped. It isn't inlined, for the same reason.
#[inline(never)]
pub fn discard_all(_args: Args) {}

/// What was found, if the sign that ends it comes next; that is taken, too. It isn't inlined: what was found is dropped if not.
#[inline(never)]
pub fn closed<'a>(found: Found<'a>, sign: &TokenKind) -> Found<'a>
    ensures { Ended sign.now found.entry result }
{
    ended(found, sign)
}

/// The arguments, if `)` comes next; that is taken, too. It isn't inlined, for the same reason.
#[inline(never)]
pub fn closed_call<'a>(args: Args, tokens: &'a [Token]) -> Result<(Args, &'a [Token]), Halt<'a>>
    ensures { Ended kind.Close (Ok (args, tokens.entry)) result }
{
    ended(Ok((args, tokens)), &TokenKind::Close)
}

/// Appends an argument, out of its box. It isn't inlined: without its box a node is large.
#[inline(never)]
pub fn append<'a>(args: &mut Args, arg: Box<Expr>) -> Result<(), Halt<'a>>
    ensures { MatchResult result (λ _. args.new ≡ args.old ++ arg.value ∷ []) (λ h. h ≡ halt.Memory) }
{
    args.push(Box::into_inner(arg))?;
    Ok(())
}
