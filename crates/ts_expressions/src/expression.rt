//! Expressions, by recursive descent: loops for chains and arguments, recursion for nesting.

ghost use Rattle.std.specs.Prelude.{◌<◌, ◌≤◌, length, IfOk};
ghost use Rattle.ts_trees.specs.Machine.{Operand, Product, Sum, Inverse, Conjunction, Whole, want, want_inverse, in_paren, in_item, named, message, sized, size_opened, size_named, first_product, first_and, sum_due, inverse_due, expr_due, give, have_product, have_sum, have_inverse, have_and, have, product_sign, sum_sign};
ghost use Rattle.ts_trees.specs.Parsing.{Reads, Lacks, LacksOperator, Caller, called_open, called};
ghost use Rattle.ts_expressions.specs.Boxed.{boxed_tree};
ghost use Rattle.ts_trees.specs.Seen.{tree_of, trees_of};
ghost use Rattle.ts_trees.specs.declared.token.TokenKind.TheVariants as kind;

use crate::found::{Found, append, called, closed, closed_call, discard_all, joined, made};
use crate::node::{
    buffer_size, inverse, item, message_item, message_size, negative, number, paren, variable,
};
use std::alloc::Global;
use ts_checked::BinOp;
use ts_trees::expect::{
    after, after_comparison_sign, after_product_sign, after_sum_sign, ended, expect, name,
};
use ts_trees::{Args, Expr, Halt, Token, TokenKind, Word};

/// Reads an expression, with all the operators that follow its parts: the expression, and the tokens after it, of
/// which the first is no `or`. It stops at the first token that doesn't fit, or after all tokens if they end too
/// early.
pub fn expr<'a>(alloc: Global, tokens: &'a [Token]) -> Result<(Expr, &'a [Token]), Halt<'a>>
    ensures reads { Reads {K = Whole} tokens.now (λ k. expr_due k) (λ e k. have (tree_of e) k) result }
    ensures over { IfOk result (λ x. Lacks kind.Or x.1.now) }
    ensures shorter { IfOk result (λ x. length x.1.now < length tokens.now) }
{
    let (found, rest) = disjunction(alloc, tokens)?;
    Ok((Box::into_inner(found), rest))
}

/// Reads a chain of `or`, which any expression is: the same, left in its box.
#[cycle(expr)]
pub fn disjunction<'a>(alloc: Global, tokens: &'a [Token]) -> Found<'a>
    ensures reads { Reads {K = Whole} tokens.now (λ k. expr_due k) (λ e k. have (boxed_tree e) k) result }
    ensures over { IfOk result (λ x. Lacks kind.Or x.1.now) }
    ensures shorter { IfOk result (λ x. length x.1.now < length tokens.now) }
{
    let (mut left, mut rest) = conjunction(alloc, tokens)?;
    while let Some(behind) = after(rest, &TokenKind::Or) {
        let (longer, then) = joined(alloc, BinOp::Or, left, conjunction(alloc, behind))?;
        left = longer;
        rest = then;
    }
    Ok((left, rest))
}

/// Reads the arguments of a call, from after its `(` up to and including its `)`: the arguments, and the tokens after
/// them. It stops at the first token that doesn't fit, or after all tokens if they end too early.
#[cycle(expr)]
pub fn arguments<'a>(alloc: Global, tokens: &'a [Token]) -> Result<(Args, &'a [Token]), Halt<'a>>
    ensures reads { Reads {K = Caller} tokens.now (λ k. called_open k) (λ es k. called k (trees_of es)) result }
    ensures shorter { IfOk result (λ x. length x.1.now < length tokens.now) }
{
    let mut args = Args::new(alloc);
    if let Some(rest) = after(tokens, &TokenKind::Close) {
        return Ok((args, rest));
    }
    let mut rest = tokens;
    loop {
        match disjunction(alloc, rest) {
            Ok((arg, behind)) => {
                if let Err(halt) = append(&mut args, arg) {
                    discard_all(args);
                    return Err(halt);
                }
                let Some(next) = after(behind, &TokenKind::Comma) else {
                    return closed_call(args, behind);
                };
                rest = next;
            }
            Err(halt) => {
                discard_all(args);
                return Err(halt);
            }
        }
    }
}

/// Reads a chain of `and`.
#[cycle(expr)]
fn conjunction<'a>(alloc: Global, tokens: &'a [Token]) -> Found<'a>
    ensures reads { Reads {K = Conjunction} tokens.now (λ k. want_inverse (first_and k)) (λ e k. have_and (boxed_tree e) k) result }
    ensures over { IfOk result (λ x. Lacks kind.And x.1.now) }
    ensures shorter { IfOk result (λ x. length x.1.now < length tokens.now) }
{
    let (mut left, mut rest) = inversion(alloc, tokens)?;
    while let Some(behind) = after(rest, &TokenKind::And) {
        let (longer, then) = joined(alloc, BinOp::And, left, inversion(alloc, behind))?;
        left = longer;
        rest = then;
    }
    Ok((left, rest))
}

/// Reads a comparison, or `not` before one.
#[cycle(expr)]
fn inversion<'a>(alloc: Global, tokens: &'a [Token]) -> Found<'a>
    ensures reads { Reads {K = Inverse} tokens.now (λ k. want_inverse k) (λ e k. have_inverse (boxed_tree e) k) result }
    ensures shorter { IfOk result (λ x. length x.1.now < length tokens.now) }
{
    let Some(behind) = after(tokens, &TokenKind::Not) else {
        return comparison(alloc, tokens);
    };
    let (of, rest) = inversion(alloc, behind)?;
    made(inverse(alloc, of), rest)
}

/// Reads a sum, or two with one sign of comparison between them.
#[cycle(expr)]
fn comparison<'a>(alloc: Global, tokens: &'a [Token]) -> Found<'a>
    ensures reads { Reads {K = Inverse} tokens.now (λ k. want (inverse_due k)) (λ e k. have_inverse (boxed_tree e) k) result }
    ensures shorter { IfOk result (λ x. length x.1.now < length tokens.now) }
{
    let (left, rest) = sum(alloc, tokens)?;
    let Some((op, behind)) = after_comparison_sign(rest) else {
        return Ok((left, rest));
    };
    joined(alloc, op, left, sum(alloc, behind))
}

/// Reads a chain of `+` and `-`.
#[cycle(expr)]
fn sum<'a>(alloc: Global, tokens: &'a [Token]) -> Found<'a>
    ensures reads { Reads {K = Sum} tokens.now (λ k. want (sum_due k)) (λ e k. have_sum (boxed_tree e) k) result }
    ensures over { IfOk result (λ x. LacksOperator sum_sign x.1.now) }
    ensures shorter { IfOk result (λ x. length x.1.now < length tokens.now) }
{
    let (mut left, mut rest) = product(alloc, tokens)?;
    while let Some((op, behind)) = after_sum_sign(rest) {
        let (longer, then) = joined(alloc, op, left, product(alloc, behind))?;
        left = longer;
        rest = then;
    }
    Ok((left, rest))
}

/// Reads a chain of `*`, `/` and `%`.
#[cycle(expr)]
fn product<'a>(alloc: Global, tokens: &'a [Token]) -> Found<'a>
    ensures reads { Reads {K = Product} tokens.now (λ k. want (first_product k)) (λ e k. have_product (boxed_tree e) k) result }
    ensures over { IfOk result (λ x. LacksOperator product_sign x.1.now) }
    ensures shorter { IfOk result (λ x. length x.1.now < length tokens.now) }
{
    let (mut left, mut rest) = operand(alloc, tokens)?;
    while let Some((op, behind)) = after_product_sign(rest) {
        let (longer, then) = joined(alloc, op, left, operand(alloc, behind))?;
        left = longer;
        rest = then;
    }
    Ok((left, rest))
}

/// Reads a literal, a name with what follows it, `size`, `msg` or parentheses, or `-` before one of these.
#[cycle(expr)]
fn operand<'a>(alloc: Global, tokens: &'a [Token]) -> Found<'a>
    ensures reads { Reads {K = Operand} tokens.now (λ k. want k) (λ e k. give k (boxed_tree e)) result }
    ensures shorter { IfOk result (λ x. length x.1.now < length tokens.now) }
{
    let Some((first, rest)) = tokens.split_first() else {
        return Err(Halt::At(tokens));
    };
    match &first.kind {
        TokenKind::Minus => {
            let (of, rest) = operand(alloc, rest)?;
            made(negative(alloc, of), rest)
        }
        TokenKind::Num(value) => made(number(alloc, *value), rest),
        TokenKind::Name(name) => {
            let word = Word {
                name: name.copy(),
                place: first.from,
            };
            behind_name(alloc, word, rest)
        }
        TokenKind::Size => size(alloc, rest),
        TokenKind::Msg => behind_message(alloc, rest),
        TokenKind::Open => behind_open(alloc, rest),
        _ => Err(Halt::At(tokens)),
    }
}

/// Reads on after a name: a call, a buffer's item, or a variable if neither follows.
#[cycle(expr)]
fn behind_name<'a>(alloc: Global, word: Word, tokens: &'a [Token]) -> Found<'a>
    ensures reads { Reads {K = Operand} tokens.now (λ k. named word k) (λ e k. give k (boxed_tree e)) result }
    ensures shorter { IfOk result (λ x. length x.1.now ≤ length tokens.now) }
{
    if let Some(rest) = after(tokens, &TokenKind::Open) {
        return called(alloc, word, arguments(alloc, rest));
    }
    if let Some(rest) = after(tokens, &TokenKind::OpenBox) {
        return behind_open_box(alloc, word, rest);
    }
    made(variable(alloc, word), tokens)
}

/// Reads on after a buffer's name and `[`: the item's index, and `]`. It isn't inlined: calls nest deeper without its places.
#[cycle(expr)]
#[inline(never)]
fn behind_open_box<'a>(alloc: Global, buffer: Word, tokens: &'a [Token]) -> Found<'a>
    ensures reads { Reads {K = Operand} tokens.now (λ k. expr_due (in_item buffer k)) (λ e k. give k (boxed_tree e)) result }
    ensures shorter { IfOk result (λ x. length x.1.now < length tokens.now) }
{
    let (index, rest) = closed(disjunction(alloc, tokens), &TokenKind::CloseBox)?;
    made(item(alloc, buffer, index), rest)
}

/// Reads on after `msg`: an index in `[` and `]`.
#[cycle(expr)]
fn behind_message<'a>(alloc: Global, tokens: &'a [Token]) -> Found<'a>
    ensures reads { Reads {K = Operand} tokens.now (λ k. message k) (λ e k. give k (boxed_tree e)) result }
    ensures shorter { IfOk result (λ x. length x.1.now < length tokens.now) }
{
    let rest = expect(tokens, &TokenKind::OpenBox)?;
    let (index, rest) = closed(disjunction(alloc, rest), &TokenKind::CloseBox)?;
    made(message_item(alloc, index), rest)
}

/// Reads on after `(`: an expression, and `)`.
#[cycle(expr)]
fn behind_open<'a>(alloc: Global, tokens: &'a [Token]) -> Found<'a>
    ensures reads { Reads {K = Operand} tokens.now (λ k. expr_due (in_paren k)) (λ e k. give k (boxed_tree e)) result }
    ensures shorter { IfOk result (λ x. length x.1.now < length tokens.now) }
{
    let (of, rest) = closed(disjunction(alloc, tokens), &TokenKind::Close)?;
    made(paren(alloc, of), rest)
}

/// Reads on after `size`: a buffer's name or `msg`, in parentheses.
fn size<'a>(alloc: Global, tokens: &'a [Token]) -> Found<'a>
    ensures reads { Reads {K = Operand} tokens.now (λ k. sized k) (λ e k. give k (boxed_tree e)) result }
    ensures shorter { IfOk result (λ x. length x.1.now < length tokens.now) }
{
    let rest = expect(tokens, &TokenKind::Open)?;
    ended(size_of(alloc, rest), &TokenKind::Close)
}

/// Reads what `size` is applied to: a buffer's name, or `msg`.
fn size_of<'a>(alloc: Global, tokens: &'a [Token]) -> Found<'a>
    ensures reads { Reads {K = Operand} tokens.now (λ k. size_opened k) (λ e k. size_named (boxed_tree e) k) result }
    ensures shorter { IfOk result (λ x. length x.1.now < length tokens.now) }
{
    if let Some(rest) = after(tokens, &TokenKind::Msg) {
        return made(message_size(alloc), rest);
    }
    let (word, rest) = name(tokens)?;
    made(buffer_size(alloc, word), rest)
}
