//! From the parts of a script to their instructions.

ghost use Rattle.std.specs.Prelude.{◌≡◌, ◌≤◌, ◌∷◌, ◌++◌, []};
ghost use Rattle.mate_num.specs.declared.bounds.TheConstants.{CODE_MAX};
ghost use Rattle.mate_code.specs.declared.instr.Instr.TheVariants.{Add, BSet, BTake, Drop, Fun};
ghost use Rattle.ts_checked.specs.Expression.{arguments};
ghost use Rattle.ts_checked.specs.Statement.{If, For, While};
ghost use Rattle.ts_checked.specs.TreeOf.{expr_tree, args_trees, stmt_tree, block_tree};
ghost use Rattle.ts_semantics.specs.Translation.{size_of_instrs, get_code, set_code, expr_code, args_code, stmt_code, block_code, for_test};
ghost use Rattle.ts_semantics.specs.Translation.{script_code, script_size};
ghost use Rattle.ts_compiler.specs.Parts.{HasRoom, WritesInstrs, guarded_code, head_code, other_code};

use crate::extent::small_block_size;
use crate::words::{get_instr, number_instr, number_size, operator_instr, set_instr, within_instr};
use arrayvec::ArrayVec;
use mate_code::Instr;
use mate_num::{BufId, CODE_MAX, FunId};
use std::marker::Model;
use ts_checked::{CArgs, CBlock, CExpr, CForHead, CStmt, CVar};

// How many bytes a jump takes.
const JUMP: u16 = 3;

/// The instructions so far, which take at most `CODE_MAX` bytes. Contracts see their list.
#[derive(Drop)]
pub(crate) struct Emitter {
    instrs: ArrayVec<Instr, CODE_MAX>,
    // The place of the next instruction.
    next: u16,
}

impl Model for Emitter {
    ghost use Rattle.std.specs.Prelude.{◌≡◌, ◌≤◌, List};
    ghost use Rattle.mate_num.specs.declared.bounds.TheConstants.{CODE_MAX};
    ghost use Rattle.mate_code.specs.declared.instr.Instr.{Instr};
    ghost use Rattle.ts_semantics.specs.Translation.{size_of_instrs};

    ghost Value = { List Instr };

    ghost view = { λ e. e.instrs.items };

    ghost invariant = { λ e. (size_of_instrs e.instrs.items ≡ e.next) × (e.next ≤ CODE_MAX) };
}

impl Emitter {
    /// The instructions of a script whose code fits.
    pub(crate) fn of(body: &CBlock) -> Emitter
        requires { script_size (block_tree body.now) ≤ CODE_MAX }
        ensures { result ≡ script_code (block_tree body.now) }
    {
        let mut emitter = Emitter::new();
        emitter.block(body);
        emitter.push(Instr::Halt);
        emitter
    }

    // No instruction.
    fn new() -> Emitter
        ensures { result ≡ [] }
    {
        Emitter {
            instrs: ArrayVec::new(),
            next: 0,
        }
    }

    /// The instructions.
    pub(crate) fn as_slice(&self) -> &[Instr]
        ensures { result.now ≡ self.now }
    {
        self.instrs.as_slice()
    }

    // The place of the next instruction.
    fn next(&self) -> u16
        ensures place { result ≡ size_of_instrs self.now }
        ensures fits { result ≤ CODE_MAX }
    {
        self.next
    }

    // Writes an instruction.
    #[tactic(auto, using(crate::proofs::PartLemmas::parts))]
    fn push(&mut self, instr: Instr)
        requires { HasRoom self.old (instr ∷ []) }
        ensures { WritesInstrs self.old (instr ∷ []) self.new }
    {
        self.instrs.push(instr);
        self.next += instr.size() as u16;
    }

    // Leaves the value of an expression on the stack.
    #[cycle(expr)]
    fn expr(&mut self, expr: &CExpr)
        requires { HasRoom self.old (expr_code (expr_tree expr.now)) }
        ensures { WritesInstrs self.old (expr_code (expr_tree expr.now)) self.new }
    {
        match expr {
            CExpr::Num(value) => self.push(number_instr(*value)),
            CExpr::Shared(variable) => self.push(Instr::GetS(*variable)),
            CExpr::Private(private) => self.push(Instr::GetP(*private)),
            CExpr::Item(buffer, index) => self.expr_then(index, Instr::BGet(*buffer)),
            CExpr::Size(buffer) => self.push(Instr::BSize(*buffer)),
            CExpr::MsgItem(index) => self.expr_then(index, Instr::MsgGet),
            CExpr::MsgSize => self.push(Instr::MsgSize),
            CExpr::Call(fun, args) => self.call(*fun, args),
            CExpr::SendBuf(fun, buffer) => self.push(Instr::FunBuf(*fun, *buffer)),
            CExpr::Neg(of) => self.expr_then(of, Instr::Neg),
            CExpr::Not(of) => self.expr_then(of, Instr::Not),
            CExpr::Two(op, left, right) => {
                let instr = operator_instr(*op);
                self.expr(left);
                self.expr_then(right, instr);
            }
        }
    }

    // Writes an expression, and an instruction that takes its value.
    #[cycle(expr)]
    fn expr_then(&mut self, expr: &CExpr, instr: Instr)
        requires { HasRoom self.old (expr_code (expr_tree expr.now) ++ instr ∷ []) }
        ensures { WritesInstrs self.old (expr_code (expr_tree expr.now) ++ instr ∷ []) self.new }
    {
        self.expr(expr);
        self.push(instr);
    }

    // Writes a call: its arguments from left to right, and the function.
    #[cycle(expr)]
    fn call(&mut self, fun: FunId, args: &CArgs)
        requires { HasRoom self.old (args_code (arguments (args_trees args.now)) ++ Fun fun ∷ []) }
        ensures { WritesInstrs self.old (args_code (arguments (args_trees args.now)) ++ Fun fun ∷ []) self.new }
    {
        self.args(args);
        self.push(Instr::Fun(fun));
    }

    #[cycle(expr)]
    fn args(&mut self, args: &CArgs)
        requires { HasRoom self.old (args_code (arguments (args_trees args.now))) }
        ensures { WritesInstrs self.old (args_code (arguments (args_trees args.now))) self.new }
    {
        for arg in args.items.as_slice() {
            self.expr(arg);
        }
    }

    #[cycle(stmt)]
    fn stmt(&mut self, stmt: &CStmt)
        requires { HasRoom self.old (stmt_code (size_of_instrs self.old) (stmt_tree stmt.now)) }
        ensures { WritesInstrs self.old (stmt_code (size_of_instrs self.old) (stmt_tree stmt.now)) self.new }
    {
        match stmt {
            CStmt::Set(variable, value) => self.expr_then(value, set_instr(*variable)),
            CStmt::SetItem(buffer, index, value) => self.set_item(*buffer, index, value),
            CStmt::Append(buffer, value) => self.expr_then(value, Instr::BAdd(*buffer)),
            CStmt::Take(variable, buffer) => self.take(*variable, *buffer),
            CStmt::Clear(buffer) => self.push(Instr::BClear(*buffer)),
            CStmt::Do(fun, args) => self.call_alone(*fun, args),
            CStmt::SendBuf(fun, buffer) => self.both(Instr::FunBuf(*fun, *buffer), Instr::Drop),
            CStmt::If(test, body, other) => match other {
                None => self.if_then(body, test),
                Some(other) => {
                    self.guarded(body, test, JUMP);
                    self.otherwise(other);
                }
            },
            CStmt::For(head, body) => self.for_loop(head, body),
            CStmt::While(test, body) => self.while_loop(body, test),
        }
    }

    // Writes two instructions.
    fn both(&mut self, first: Instr, second: Instr)
        requires { HasRoom self.old (first ∷ second ∷ []) }
        ensures { WritesInstrs self.old (first ∷ second ∷ []) self.new }
    {
        self.push(first);
        self.push(second);
    }

    fn set_item(&mut self, buffer: BufId, index: &CExpr, value: &CExpr)
        requires { let index = expr_code (expr_tree index.now) in
            HasRoom self.old (index ++ (expr_code (expr_tree value.now) ++ BSet buffer ∷ [])) }
        ensures { let index = expr_code (expr_tree index.now) in
            WritesInstrs self.old (index ++ (expr_code (expr_tree value.now) ++ BSet buffer ∷ [])) self.new }
    {
        self.expr(index);
        self.expr_then(value, Instr::BSet(buffer));
    }

    fn take(&mut self, variable: CVar, buffer: BufId)
        requires { HasRoom self.old (BTake buffer ∷ set_code variable ∷ []) }
        ensures { WritesInstrs self.old (BTake buffer ∷ set_code variable ∷ []) self.new }
    {
        let set = set_instr(variable);
        self.both(Instr::BTake(buffer), set);
    }

    // Writes a call whose result is dropped.
    fn call_alone(&mut self, fun: FunId, args: &CArgs)
        requires { let call = args_code (arguments (args_trees args.now)) ++ Fun fun ∷ [] in
            HasRoom self.old (call ++ Drop ∷ []) }
        ensures { let call = args_code (arguments (args_trees args.now)) ++ Fun fun ∷ [] in
            WritesInstrs self.old (call ++ Drop ∷ []) self.new }
    {
        self.call(fun, args);
        self.push(Instr::Drop);
    }

    // Writes a test, and a part that runs if it holds; else the run goes on `behind` bytes after the part.
    #[cycle(stmt)]
    fn guarded(&mut self, body: &CBlock, test: &CExpr, behind: u16)
        requires room { let test = expr_tree test.now in
            HasRoom self.old (guarded_code (size_of_instrs self.old) test (block_tree body.now) behind) }
        requires near { behind ≤ 3 }
        ensures { let test = expr_tree test.now in
            WritesInstrs self.old (guarded_code (size_of_instrs self.old) test (block_tree body.now) behind) self.new }
    {
        self.expr(test);
        let end = self.next() + JUMP + small_block_size(body) + behind;
        self.push(Instr::Jz(end));
        self.block(body);
    }

    // Writes a part that is jumped over.
    #[cycle(stmt)]
    fn otherwise(&mut self, other: &CBlock)
        requires { HasRoom self.old (other_code (size_of_instrs self.old) (block_tree other.now)) }
        ensures { WritesInstrs self.old (other_code (size_of_instrs self.old) (block_tree other.now)) self.new }
    {
        let end = self.next() + JUMP + small_block_size(other);
        self.push(Instr::Jmp(end));
        self.block(other);
    }

    #[cycle(stmt)]
    fn if_then(&mut self, body: &CBlock, test: &CExpr)
        requires { let made = If (expr_tree test.now) (block_tree body.now) in
            HasRoom self.old (stmt_code (size_of_instrs self.old) made) }
        ensures { let made = If (expr_tree test.now) (block_tree body.now) in
            WritesInstrs self.old (stmt_code (size_of_instrs self.old) made) self.new }
    {
        self.guarded(body, test, 0);
    }

    #[cycle(stmt)]
    fn while_loop(&mut self, body: &CBlock, test: &CExpr)
        requires { let made = While (expr_tree test.now) (block_tree body.now) in
            HasRoom self.old (stmt_code (size_of_instrs self.old) made) }
        ensures { let made = While (expr_tree test.now) (block_tree body.now) in
            WritesInstrs self.old (stmt_code (size_of_instrs self.old) made) self.new }
    {
        let begin = self.next();
        self.guarded(body, test, JUMP);
        self.push(Instr::Back(begin));
    }

    #[cycle(stmt)]
    fn for_loop(&mut self, head: &CForHead, body: &CBlock)
        requires { let from = expr_tree head.now.from in
            let to = expr_tree head.now.to in
            let made = For head.now.var from to head.now.step (block_tree body.now) in
            HasRoom self.old (stmt_code (size_of_instrs self.old) made) }
        ensures { let from = expr_tree head.now.from in
            let to = expr_tree head.now.to in
            let made = For head.now.var from to head.now.step (block_tree body.now) in
            WritesInstrs self.old (stmt_code (size_of_instrs self.old) made) self.new }
    {
        let test = self.for_head(head);
        let step = number_instr(head.step);
        let size = number_size(head.step);
        let end = self.next() + JUMP + small_block_size(body) + 5 + size + JUMP;
        self.push(Instr::Jz(end));
        self.block(body);
        self.step(head.var, step);
        self.push(Instr::Back(test));
    }

    // Writes the first value of a `for`, and its test, whose place it returns.
    fn for_head(&mut self, head: &CForHead) -> u16
        requires { let from = expr_tree head.now.from in
            HasRoom self.old (head_code head.now.var from (expr_tree head.now.to) head.now.step) }
        ensures code { let from = expr_tree head.now.from in
            WritesInstrs self.old (head_code head.now.var from (expr_tree head.now.to) head.now.step) self.new }
        ensures test { result ≡ for_test (size_of_instrs self.old) (expr_tree head.now.from) }
    {
        let set = set_instr(head.var);
        let get = get_instr(head.var);
        let within = within_instr(head.step);
        self.expr_then(&head.from, set);
        let test = self.next();
        self.push(get);
        self.expr_then(&head.to, within);
        test
    }

    // Adds the step of a `for` to its variable.
    fn step(&mut self, variable: CVar, step: Instr)
        requires { HasRoom self.old (get_code variable ∷ step ∷ Add ∷ set_code variable ∷ []) }
        ensures { WritesInstrs self.old (get_code variable ∷ step ∷ Add ∷ set_code variable ∷ []) self.new }
    {
        let get = get_instr(variable);
        let set = set_instr(variable);
        self.both(get, step);
        self.both(Instr::Add, set);
    }

    // Writes the code of a block.
    #[cycle(stmt)]
    fn block(&mut self, block: &CBlock)
        requires { HasRoom self.old (block_code (size_of_instrs self.old) (block_tree block.now)) }
        ensures { WritesInstrs self.old (block_code (size_of_instrs self.old) (block_tree block.now)) self.new }
    {
        for stmt in block.items.as_slice() {
            self.stmt(stmt);
        }
    }
}
