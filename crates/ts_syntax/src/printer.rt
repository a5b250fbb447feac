//! A script's text: its tokens, with one space between two.

ghost use Rattle.std.specs.Prelude.{◌≡◌, ◌∷◌, ◌++◌, ℕ, List, [], ◌&&◌, false, Ok};
ghost use Rattle.mate_files.specs.Sink.{Puts};
ghost use Rattle.ts_trees.specs.declared.token.TokenKind.{TokenKind};
ghost use Rattle.ts_trees.specs.declared.token.TokenKind.TheVariants as kind;
ghost use Rattle.ts_syntax.specs.Naming.{named_expr, named_args, named_act, named_acts};
ghost use Rattle.ts_syntax.specs.Print.{PrintsTokens, comma_before, head_spelled, closing};
ghost use Rattle.ts_trees.specs.Tree.{set};
ghost use Rattle.ts_trees.specs.Seen.{tree_of, trees_of, act_of, acts_of, source_seen};
ghost use Rattle.ts_trees.specs.Spelling.{sign, name, decl_keyword, decl_start, spelled, args_spelled, minus_spelled, step_spelled};
ghost use Rattle.ts_trees.specs.Spelling.{act_spelled, acts_spelled, decls_spelled, source_spelled};
ghost use Rattle.ts_trees.specs.Text.{space, token_text, text_of};

use crate::naming::{AsWritten, Naming};
use mate_files::{Pen, Sink, SinkFault};
use ts_checked::BinOp;
use ts_trees::{Args, Block, Decl, DeclKind, Expr, ForHead, Script, Step, Stmt, Word};

/// Prints tokens with one space between two.
#[derive(Drop)]
pub struct Printer {
    pub pen: Pen,
    /// Whether a token was printed.
    pub begun: bool,
}

/// What comes before a token: a space if another token is before it.
fn gap(begun: bool) -> &'static str
    ensures { result.now ≡ space begun }
{
    if begun { " " } else { "" }
}

/// A token with what comes before it; `spaced` is the token with a space before it.
fn with_gap(begun: bool, spaced: &[u8]) -> &[u8]
    ensures { (text : List ℕ) → spaced.now ≡ 32 ∷ text → result.now ≡ space begun ++ text }
{
    if begun {
        return spaced;
    }
    match spaced.split_first() {
        None => spaced,
        Some((_, text)) => text,
    }
}

/// The text of an operator, with a space before it.
fn sign_text(op: BinOp) -> &'static str
    ensures { result.now ≡ 32 ∷ token_text (sign op) }
{
    match op {
        BinOp::Or => " or",
        BinOp::And => " and",
        BinOp::Eq => " =",
        BinOp::Ne => " <>",
        BinOp::Lt => " <",
        BinOp::Gt => " >",
        BinOp::Le => " <=",
        BinOp::Ge => " >=",
        BinOp::Add => " +",
        BinOp::Sub => " -",
        BinOp::Mul => " *",
        BinOp::Div => " /",
        BinOp::Rem => " %",
    }
}

/// The keyword of a declaration, with a space before it.
fn keyword_text(kind: DeclKind) -> &'static str
    ensures { result.now ≡ 32 ∷ token_text (decl_keyword kind) }
{
    match kind {
        DeclKind::Shared => " shared",
        DeclKind::Private => " private",
        DeclKind::Buffer => " buffer",
    }
}

/// Whether a declaration ends before a name: another name is before it, and this one is the first of a declaration.
fn ends(behind: bool, first: bool) -> bool
    ensures { result ≡ (behind && first) }
{
    behind && first
}

/// What comes before a declared name, with a space before it.
fn start_text(first: bool, kind: DeclKind) -> &'static str
    ensures { result.now ≡ 32 ∷ token_text (decl_start first kind) }
{
    if first { keyword_text(kind) } else { " ," }
}

impl Printer {
    /// A printer that printed nothing yet.
    pub fn new() -> Printer
        ensures fresh { result.pen.result ≡ Ok tt }
        ensures begun { result.begun ≡ false }
    {
        Printer {
            pen: Pen::new(),
            begun: false,
        }
    }

    /// The pen, after all tokens.
    pub fn into_pen(self) -> Pen
        ensures { result ≡ self.pen }
    {
        let Printer { pen, .. } = self;
        pen
    }

    /// Prints a token by its text, which is given with a space before it, so that both are one piece.
    fn token<S: Sink>(&mut self, out: &mut S, spaced: &str)
        ensures { (k : TokenKind) → spaced.now ≡ 32 ∷ token_text k → PrintsTokens (S.written out.old) (S.faults out.old) self.old
            (S.written out.new) (S.faults out.new) self.new (k ∷ []) }
    {
        self.pen.bytes(out, with_gap(self.begun, spaced.as_bytes()));
        self.begun = true;
    }

    /// Prints a literal: its value in decimal.
    fn number<S: Sink>(&mut self, out: &mut S, value: u16)
        ensures { PrintsTokens (S.written out.old) (S.faults out.old) self.old
            (S.written out.new) (S.faults out.new) self.new (kind.Num value ∷ []) }
    {
        self.pen.text(out, gap(self.begun));
        self.pen.number(out, value as u64);
        self.begun = true;
    }

    fn name<S: Sink>(&mut self, out: &mut S, word: &Word)
        ensures { PrintsTokens (S.written out.old) (S.faults out.old) self.old
            (S.written out.new) (S.faults out.new) self.new (name word.now ∷ []) }
    {
        self.pen.text(out, gap(self.begun));
        self.pen.bytes(out, word.name.as_bytes());
        self.begun = true;
    }

    /// Prints the name that a variable or a buffer has.
    fn named<S: Sink, N: Naming>(&mut self, out: &mut S, naming: &N, word: &Word)
        ensures { PrintsTokens (S.written out.old) (S.faults out.old) self.old
            (S.written out.new) (S.faults out.new) self.new (name (N.named naming.now word.now) ∷ []) }
    {
        let word = naming.word(word);
        self.name(out, &word);
    }

    /// Prints such a name in parentheses.
    fn parens<S: Sink, N: Naming>(&mut self, out: &mut S, naming: &N, word: &Word)
        ensures { PrintsTokens (S.written out.old) (S.faults out.old) self.old
            (S.written out.new) (S.faults out.new) self.new (kind.Open ∷ name (N.named naming.now word.now) ∷ kind.Close ∷ []) }
    {
        self.token(out, " (");
        self.named(out, naming, word);
        self.token(out, " )");
    }

    #[cycle(print_expr)]
    fn expr<S: Sink, N: Naming>(&mut self, out: &mut S, naming: &N, expr: &Expr)
        ensures { PrintsTokens (S.written out.old) (S.faults out.old) self.old
            (S.written out.new) (S.faults out.new) self.new (spelled (named_expr (N.named naming.now) (tree_of expr.now))) }
    {
        match expr {
            Expr::Num(value) => {
                self.number(out, *value);
            }
            Expr::Var(word) => {
                self.named(out, naming, word);
            }
            Expr::Item(word, index) => {
                self.named(out, naming, word);
                self.token(out, " [");
                self.expr(out, naming, index);
                self.token(out, " ]");
            }
            Expr::Size(word) => {
                self.token(out, " size");
                self.parens(out, naming, word);
            }
            Expr::MsgItem(index) => {
                self.token(out, " msg");
                self.token(out, " [");
                self.expr(out, naming, index);
                self.token(out, " ]");
            }
            Expr::MsgSize => {
                self.token(out, " size");
                self.token(out, " (");
                self.token(out, " msg");
                self.token(out, " )");
            }
            Expr::Call(word, args) => {
                self.name(out, word);
                self.token(out, " (");
                self.args(out, naming, args);
                self.token(out, " )");
            }
            Expr::Neg(of) => {
                self.token(out, " -");
                self.expr(out, naming, of);
            }
            Expr::Not(of) => {
                self.token(out, " not");
                self.expr(out, naming, of);
            }
            Expr::Two(op, left, right) => {
                self.expr(out, naming, left);
                self.token(out, sign_text(*op));
                self.expr(out, naming, right);
            }
            Expr::Paren(of) => {
                self.token(out, " (");
                self.expr(out, naming, of);
                self.token(out, " )");
            }
        }
    }

    /// Prints the comma before an argument that isn't the first.
    fn comma<S: Sink>(&mut self, out: &mut S, first: bool)
        ensures { PrintsTokens (S.written out.old) (S.faults out.old) self.old
            (S.written out.new) (S.faults out.new) self.new (comma_before first) }
    {
        if !first {
            self.token(out, " ,");
        }
    }

    #[cycle(print_expr)]
    fn args<S: Sink, N: Naming>(&mut self, out: &mut S, naming: &N, args: &Args)
        ensures { PrintsTokens (S.written out.old) (S.faults out.old) self.old
            (S.written out.new) (S.faults out.new) self.new (args_spelled (named_args (N.named naming.now) (trees_of args.now))) }
    {
        let mut first = true;
        for arg in args.as_slice() {
            self.comma(out, first);
            self.expr(out, naming, arg);
            first = false;
        }
    }

    fn step<S: Sink>(&mut self, out: &mut S, step: Option<Step>)
        ensures { PrintsTokens (S.written out.old) (S.faults out.old) self.old
            (S.written out.new) (S.faults out.new) self.new (step_spelled step) }
    {
        match step {
            None => {}
            Some(step) => {
                self.token(out, " step");
                self.minus(out, step.minus);
                self.number(out, step.size);
            }
        }
    }

    fn minus<S: Sink>(&mut self, out: &mut S, minus: bool)
        ensures { PrintsTokens (S.written out.old) (S.faults out.old) self.old
            (S.written out.new) (S.faults out.new) self.new (minus_spelled minus) }
    {
        if minus {
            self.token(out, " -");
        }
    }

    /// Prints what is before the block of an `if`.
    pub fn if_head<S: Sink, N: Naming>(&mut self, out: &mut S, naming: &N, test: &Expr)
        ensures { PrintsTokens (S.written out.old) (S.faults out.old) self.old
            (S.written out.new) (S.faults out.new) self.new
            (kind.If ∷ spelled (named_expr (N.named naming.now) (tree_of test.now)) ++ (kind.Then ∷ [])) }
    {
        self.token(out, " if");
        self.expr(out, naming, test);
        self.token(out, " then");
    }

    /// Prints what is between the blocks of an `if`.
    pub fn otherwise<S: Sink>(&mut self, out: &mut S)
        ensures { PrintsTokens (S.written out.old) (S.faults out.old) self.old
            (S.written out.new) (S.faults out.new) self.new (kind.Else ∷ []) }
    {
        self.token(out, " else");
    }

    /// Prints the end of an `if`.
    pub fn end_if<S: Sink>(&mut self, out: &mut S)
        ensures { PrintsTokens (S.written out.old) (S.faults out.old) self.old
            (S.written out.new) (S.faults out.new) self.new (kind.End ∷ kind.If ∷ []) }
    {
        self.token(out, " end");
        self.token(out, " if");
    }

    /// Prints what is before the block of a `for`.
    pub fn for_head<S: Sink, N: Naming>(&mut self, out: &mut S, naming: &N, head: &ForHead)
        ensures { PrintsTokens (S.written out.old) (S.faults out.old) self.old
            (S.written out.new) (S.faults out.new) self.new (head_spelled (N.named naming.now) head.now) }
    {
        self.token(out, " for");
        self.named(out, naming, &head.var);
        self.token(out, " =");
        self.expr(out, naming, &head.from);
        self.token(out, " to");
        self.expr(out, naming, &head.to);
        self.step(out, head.step);
    }

    /// Prints the end of a `for`.
    pub fn next<S: Sink, N: Naming>(&mut self, out: &mut S, naming: &N, word: &Word)
        ensures { PrintsTokens (S.written out.old) (S.faults out.old) self.old
            (S.written out.new) (S.faults out.new) self.new (kind.Next ∷ name (N.named naming.now word.now) ∷ []) }
    {
        self.token(out, " next");
        self.named(out, naming, word);
    }

    /// Prints what is before the block of a `while`.
    pub fn while_head<S: Sink, N: Naming>(&mut self, out: &mut S, naming: &N, test: &Expr)
        ensures { PrintsTokens (S.written out.old) (S.faults out.old) self.old
            (S.written out.new) (S.faults out.new) self.new (kind.While ∷ spelled (named_expr (N.named naming.now) (tree_of test.now))) }
    {
        self.token(out, " while");
        self.expr(out, naming, test);
    }

    /// Prints the end of a `while`.
    pub fn end_while<S: Sink>(&mut self, out: &mut S)
        ensures { PrintsTokens (S.written out.old) (S.faults out.old) self.old
            (S.written out.new) (S.faults out.new) self.new (kind.End ∷ kind.While ∷ []) }
    {
        self.token(out, " end");
        self.token(out, " while");
    }

    /// Prints what is set, and the end of the statement.
    fn assigned<S: Sink, N: Naming>(&mut self, out: &mut S, naming: &N, value: &Expr)
        ensures { PrintsTokens (S.written out.old) (S.faults out.old) self.old
            (S.written out.new) (S.faults out.new) self.new
            (kind.Eq ∷ spelled (named_expr (N.named naming.now) (tree_of value.now)) ++ (kind.Semi ∷ [])) }
    {
        self.token(out, " =");
        self.expr(out, naming, value);
        self.token(out, " ;");
    }

    /// Prints an assignment to the variable of a name that is printed as it is.
    pub fn assignment<S: Sink, N: Naming>(
        &mut self,
        out: &mut S,
        naming: &N,
        word: &Word,
        value: &Expr,
    )
        ensures { PrintsTokens (S.written out.old) (S.faults out.old) self.old
            (S.written out.new) (S.faults out.new) self.new
            (act_spelled (set word.now (named_expr (N.named naming.now) (tree_of value.now)))) }
    {
        self.name(out, word);
        self.assigned(out, naming, value);
    }

    /// Prints what comes after a buffer that is appended to or taken from.
    fn boxes<S: Sink>(&mut self, out: &mut S)
        ensures { PrintsTokens (S.written out.old) (S.faults out.old) self.old
            (S.written out.new) (S.faults out.new) self.new (kind.OpenBox ∷ kind.CloseBox ∷ []) }
    {
        self.token(out, " [");
        self.token(out, " ]");
    }

    /// Prints a call that is a statement, and its end.
    fn call_alone<S: Sink, N: Naming>(&mut self, out: &mut S, naming: &N, word: &Word, args: &Args)
        ensures { PrintsTokens (S.written out.old) (S.faults out.old) self.old
            (S.written out.new) (S.faults out.new) self.new (name word.now ∷ kind.Open
            ∷ args_spelled (named_args (N.named naming.now) (trees_of args.now)) ++ (kind.Close ∷ kind.Semi ∷ [])) }
    {
        self.name(out, word);
        self.token(out, " (");
        self.args(out, naming, args);
        self.token(out, " )");
        self.token(out, " ;");
    }

    /// Prints a statement, with the blocks inside it.
    #[cycle(print_stmt)]
    pub fn stmt<S: Sink, N: Naming>(&mut self, out: &mut S, naming: &N, stmt: &Stmt)
        ensures { PrintsTokens (S.written out.old) (S.faults out.old) self.old
            (S.written out.new) (S.faults out.new) self.new (act_spelled (named_act (N.named naming.now) (act_of stmt.now))) }
    {
        match stmt {
            Stmt::Set(word, value) => {
                self.named(out, naming, word);
                self.assigned(out, naming, value);
            }
            Stmt::SetItem(word, index, value) => {
                self.named(out, naming, word);
                self.token(out, " [");
                self.expr(out, naming, index);
                self.token(out, " ]");
                self.assigned(out, naming, value);
            }
            Stmt::Append(word, value) => {
                self.named(out, naming, word);
                self.boxes(out);
                self.assigned(out, naming, value);
            }
            Stmt::Take(word, buffer) => {
                self.named(out, naming, word);
                self.token(out, " =");
                self.named(out, naming, buffer);
                self.boxes(out);
                self.token(out, " ;");
            }
            Stmt::Clear(word) => {
                self.token(out, " clear");
                self.parens(out, naming, word);
                self.token(out, " ;");
            }
            Stmt::Do(word, args) => {
                self.call_alone(out, naming, word, args);
            }
            Stmt::If(test, block, other) => {
                self.if_head(out, naming, test);
                self.block(out, naming, block);
                match other {
                    None => {
                        self.end_if(out);
                    }
                    Some(other) => {
                        self.otherwise(out);
                        self.block(out, naming, other);
                        self.end_if(out);
                    }
                }
            }
            Stmt::For(head, body, word) => {
                self.for_head(out, naming, head);
                self.block(out, naming, body);
                self.next(out, naming, word);
            }
            Stmt::While(test, body) => {
                self.while_head(out, naming, test);
                self.block(out, naming, body);
                self.end_while(out);
            }
            Stmt::Run(word, args) => {
                self.token(out, " do");
                self.call_alone(out, naming, word, args);
            }
        }
    }

    /// Prints the statements of a block.
    #[cycle(print_stmt)]
    pub fn block<S: Sink, N: Naming>(&mut self, out: &mut S, naming: &N, block: &Block)
        ensures { PrintsTokens (S.written out.old) (S.faults out.old) self.old
            (S.written out.new) (S.faults out.new) self.new (acts_spelled (named_acts (N.named naming.now) (acts_of block.now))) }
    {
        for stmt in block.as_slice() {
            self.stmt(out, naming, stmt);
        }
    }

    /// Prints the `;` of a declaration that is open, if the next name begins another one.
    fn close<S: Sink>(&mut self, out: &mut S, behind: bool)
        ensures { PrintsTokens (S.written out.old) (S.faults out.old) self.old
            (S.written out.new) (S.faults out.new) self.new (closing behind) }
    {
        if behind {
            self.token(out, " ;");
        }
    }

    /// Prints a declared name; `behind` says whether another one is before it.
    fn decl<S: Sink>(&mut self, out: &mut S, behind: bool, decl: &Decl)
        ensures { PrintsTokens (S.written out.old) (S.faults out.old) self.old
            (S.written out.new) (S.faults out.new) self.new (closing (behind && decl.now.first)
            ++ (decl_start decl.now.first decl.now.kind ∷ name decl.now.word ∷ [])) }
    {
        self.close(out, ends(behind, decl.first));
        self.token(out, start_text(decl.first, decl.kind));
        self.name(out, &decl.word);
    }

    /// Prints declarations.
    pub fn decls<S: Sink>(&mut self, out: &mut S, decls: &[Decl])
        ensures { PrintsTokens (S.written out.old) (S.faults out.old) self.old
            (S.written out.new) (S.faults out.new) self.new (decls_spelled decls.now) }
    {
        let mut behind = false;
        for decl in decls {
            self.decl(out, behind, decl);
            behind = true;
        }
        self.close(out, behind);
    }
}

/// Writes the tokens of `script` with one space between two: keywords, names and signs as they are, literals in
/// decimal. Parentheses are kept. It takes no memory; a refusal leaves a prefix of the text in the sink.
pub fn print<S: Sink>(script: &Script, out: &mut S) -> Result<(), SinkFault>
    ensures { Puts (S.written out.old) (S.faults out.old) (S.written out.new) (S.faults out.new) result
        (text_of (source_spelled (source_seen script.now))) }
{
    let mut printer = Printer::new();
    printer.decls(out, script.decls.as_slice());
    printer.block(out, &AsWritten, &script.body);
    printer.into_pen().finish()
}
