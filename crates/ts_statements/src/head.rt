//! The head of a `for`.

ghost use Rattle.std.specs.Prelude.{◌≤◌, ◌<◌, length, IfOk};
ghost use Rattle.ts_trees.specs.Machine.{Frame, for_word};
ghost use Rattle.ts_trees.specs.Parsing.{Reads, Lacks};
ghost use Rattle.ts_statements.specs.Simple.{Bound, limit_due, limit_read, limited, head_read, Limit, FindsMinus, TakesNumber};
ghost use Rattle.ts_trees.specs.Seen.{tree_of};
ghost use Rattle.ts_trees.specs.Tree.{Acts};
ghost use Rattle.ts_trees.specs.declared.token.TokenKind.TheVariants as kind;

use std::alloc::Global;
use ts_expressions::expr;
use ts_trees::expect::{after, ended, name};
use ts_trees::{Expr, ForHead, Halt, Step, Token, TokenKind};

/// Reads the head of a `for` after that keyword.
#[inline(never)]
pub fn for_head<'a>(alloc: Global, tokens: &'a [Token]) -> Result<(ForHead, &'a [Token]), Halt<'a>>
    ensures reads { Reads {K = Acts × Frame} tokens.now (λ k. for_word k.0 k.1) (λ h k. head_read k h) result }
    ensures shorter { IfOk result (λ x. length x.1.now < length tokens.now) }
{
    let (var, rest) = ended(name(tokens), &TokenKind::Eq)?;
    let (from, rest) = ended(expr(alloc, rest), &TokenKind::To)?;
    let ((to, step), rest) = limit(alloc, rest)?;
    let head = ForHead {
        var,
        from,
        to,
        step,
    };
    Ok((head, rest))
}

/// Reads on after `to`: the limit, and the step if there is one.
fn limit<'a>(
    alloc: Global,
    tokens: &'a [Token],
) -> Result<((Expr, Option<Step>), &'a [Token]), Halt<'a>>
    ensures reads { Reads {K = Bound} tokens.now (λ k. limit_due k) (λ x k. limited k (tree_of x.0) x.1) result }
    ensures shorter { IfOk result (λ x. length x.1.now < length tokens.now) }
{
    let (to, rest) = expr(alloc, tokens)?;
    let (step, rest) = step(rest)?;
    Ok(((to, step), rest))
}

/// Reads `step` and its literal; None if another token than `step` follows.
fn step<'a>(tokens: &'a [Token]) -> Result<(Option<Step>, &'a [Token]), Halt<'a>>
    requires { Lacks kind.Or tokens.now }
    ensures reads { Reads {K = Limit} tokens.now (λ k. limit_read k.bound k.to) (λ s k. limited k.bound k.to s) result }
    ensures shorter { IfOk result (λ x. length x.1.now ≤ length tokens.now) }
{
    let Some(rest) = after(tokens, &TokenKind::Step) else {
        return Ok((None, tokens));
    };
    let (minus, rest) = sign(rest);
    let (size, place, rest) = number(rest)?;
    Ok((Some(Step { minus, size, place }), rest))
}

/// Whether the tokens begin with `-`, and the tokens after it.
fn sign(tokens: &[Token]) -> (bool, &[Token])
    ensures { FindsMinus tokens.now result.0 result.1.now }
{
    if let Some(rest) = after(tokens, &TokenKind::Minus) {
        return (true, rest);
    }
    (false, tokens)
}

/// Takes a literal: its value and its place.
fn number<'a>(tokens: &'a [Token]) -> Result<(u16, u32, &'a [Token]), Halt<'a>>
    ensures { TakesNumber tokens.now result }
{
    let Some((first, rest)) = tokens.split_first() else {
        return Err(Halt::At(tokens));
    };
    match &first.kind {
        TokenKind::Num(value) => Ok((*value, first.from, rest)),
        _ => Err(Halt::At(tokens)),
    }
}
