//! Statements, blocks and loops.

ghost use Rattle.std.specs.Prelude.{◌≡◌, ◌≤◌};
ghost use Rattle.mate_num.specs.Number.{is_truth};
ghost use Rattle.ts_checked.specs.Expression.{arguments};
ghost use Rattle.ts_checked.specs.Statement.{Set, SetItem, Append, Do, DoSend, For, While};
ghost use Rattle.ts_checked.specs.TreeOf.{expr_tree, args_trees, stmt_tree, block_tree};
ghost use Rattle.ts_semantics.specs.State.{loop_does};
ghost use Rattle.ts_semantics.specs.Meaning.{value_of, run_stmt, run_block, while_round, for_round, is_within};
ghost use Rattle.ts_meaning.specs.Follows.{FollowsMeaning};

use crate::evaluator::{Evaluator, Stop};
use mate_num::{BufId, FunId, Num16};
use ts_checked::{CArgs, CBlock, CExpr, CForHead, CStmt, CVar};

fn is_true(value: i16) -> bool
    ensures { result ≡ is_truth value }
{
    value != 0
}

fn is_within_limit(step: i16, value: i16, limit: i16) -> bool
    ensures { result ≡ is_within step value limit }
{
    if step < 0 {
        value >= limit
    } else {
        value <= limit
    }
}

impl Evaluator<'_> {
    fn assign(&mut self, variable: CVar, value: &CExpr) -> Result<(), Stop>
        ensures follows { FollowsMeaning (run_stmt (Set variable (expr_tree value.now))) self.old result self.new }
        ensures turns { self.new.turns ≡ self.old.turns }
    {
        let value = self.value(value)?;
        self.set(variable, value);
        Ok(())
    }

    fn assign_item(&mut self, buffer: BufId, index: &CExpr, value: &CExpr) -> Result<(), Stop>
        ensures follows { FollowsMeaning (run_stmt (SetItem buffer (expr_tree index.now) (expr_tree value.now))) self.old result self.new }
        ensures turns { self.new.turns ≡ self.old.turns }
    {
        let index = self.value(index)?;
        let value = self.value(value)?;
        self.set_item(buffer, index, value)
    }

    fn append_value(&mut self, buffer: BufId, value: &CExpr) -> Result<(), Stop>
        ensures follows { FollowsMeaning (run_stmt (Append buffer (expr_tree value.now))) self.old result self.new }
        ensures turns { self.new.turns ≡ self.old.turns }
    {
        let value = self.value(value)?;
        self.append(buffer, value)
    }

    // A call whose result is dropped.
    fn call_alone(&mut self, fun: FunId, args: &CArgs) -> Result<(), Stop>
        ensures follows { FollowsMeaning (run_stmt (Do fun (arguments (args_trees args.now)))) self.old result self.new }
        ensures turns { self.new.turns ≡ self.old.turns }
    {
        let _ = self.call(fun, args)?;
        Ok(())
    }

    fn send_alone(&mut self, fun: FunId, buffer: BufId) -> Result<(), Stop>
        ensures follows { FollowsMeaning (run_stmt (DoSend fun buffer)) self.old result self.new }
        ensures turns { self.new.turns ≡ self.old.turns }
    {
        let _ = self.ask(fun, self.payload(buffer))?;
        Ok(())
    }

    #[cycle(stmt)]
    fn stmt(&mut self, stmt: &CStmt) -> Result<(), Stop>
        ensures follows { FollowsMeaning (run_stmt (stmt_tree stmt.now)) self.old result self.new }
        ensures turns { self.new.turns ≤ self.old.turns }
    {
        match stmt {
            CStmt::Set(variable, value) => self.assign(*variable, value),
            CStmt::SetItem(buffer, index, value) => self.assign_item(*buffer, index, value),
            CStmt::Append(buffer, value) => self.append_value(*buffer, value),
            CStmt::Take(variable, buffer) => self.take(*variable, *buffer),
            CStmt::Clear(buffer) => {
                self.clear(*buffer);
                Ok(())
            }
            CStmt::Do(fun, args) => self.call_alone(*fun, args),
            CStmt::SendBuf(fun, buffer) => self.send_alone(*fun, *buffer),
            CStmt::If(test, body, other) => {
                let test = self.value(test)?;
                if is_true(test) {
                    self.block(body)
                } else {
                    match other {
                        None => Ok(()),
                        Some(other) => self.block(other),
                    }
                }
            }
            CStmt::For(head, body) => self.for_loop(head, body),
            CStmt::While(test, body) => self.while_loop(body, test),
        }
    }

    /// Runs the statements of a block, one after another.
    #[cycle(stmt)]
    pub(crate) fn block(&mut self, block: &CBlock) -> Result<(), Stop>
        ensures follows { FollowsMeaning (run_block (block_tree block.now)) self.old result self.new }
        ensures turns { self.new.turns ≤ self.old.turns }
    {
        for stmt in block.items.as_slice() {
            self.stmt(stmt)?;
        }
        Ok(())
    }

    #[cycle(stmt)]
    #[tactic(auto, using(ts_semantics::proofs::LoopLemmas::loops))]
    fn while_loop(&mut self, body: &CBlock, test: &CExpr) -> Result<(), Stop>
        ensures follows { FollowsMeaning (run_stmt (While (expr_tree test.now) (block_tree body.now))) self.old result self.new }
        ensures turns { self.new.turns ≤ self.old.turns }
    {
        while self.while_round(body, test)? {
            self.pay()?;
        }
        Ok(())
    }

    // The test and the body of a `while`; whether the loop goes back.
    #[cycle(stmt)]
    fn while_round(&mut self, body: &CBlock, test: &CExpr) -> Result<bool, Stop>
        ensures follows { let value = value_of (expr_tree test.now) in
            FollowsMeaning (while_round value (run_block (block_tree body.now))) self.old result self.new }
        ensures turns { self.new.turns ≤ self.old.turns }
    {
        let test = self.value(test)?;
        if !is_true(test) {
            return Ok(false);
        }
        self.block(body)?;
        Ok(true)
    }

    #[cycle(stmt)]
    fn for_loop(&mut self, head: &CForHead, body: &CBlock) -> Result<(), Stop>
        ensures follows { let from = expr_tree head.now.from in
            let to = expr_tree head.now.to in
            FollowsMeaning (run_stmt (For head.now.var from to head.now.step (block_tree body.now))) self.old result self.new }
        ensures turns { self.new.turns ≤ self.old.turns }
    {
        let from = self.value(&head.from)?;
        self.set(head.var, from);
        self.for_rounds(head, body)
    }

    #[cycle(stmt)]
    #[tactic(auto, using(ts_semantics::proofs::LoopLemmas::loops))]
    fn for_rounds(&mut self, head: &CForHead, body: &CBlock) -> Result<(), Stop>
        ensures follows { let limit = value_of (expr_tree head.now.to) in
            let body = run_block (block_tree body.now) in
            FollowsMeaning (loop_does (for_round head.now.var limit head.now.step body)) self.old result self.new }
        ensures turns { self.new.turns ≤ self.old.turns }
    {
        while self.for_round(head, body)? {
            self.pay()?;
        }
        Ok(())
    }

    // The test, the body and the step of a `for`; whether the loop goes back.
    #[cycle(stmt)]
    fn for_round(&mut self, head: &CForHead, body: &CBlock) -> Result<bool, Stop>
        ensures follows { let limit = value_of (expr_tree head.now.to) in
            let body = run_block (block_tree body.now) in
            FollowsMeaning (for_round head.now.var limit head.now.step body) self.old result self.new }
        ensures turns { self.new.turns ≤ self.old.turns }
    {
        let value = self.variable(head.var);
        let limit = self.value(&head.to)?;
        if !is_within_limit(head.step, value, limit) {
            return Ok(false);
        }
        self.block(body)?;
        let value = self.variable(head.var);
        self.set(head.var, Num16(value).add(Num16(head.step)).0);
        Ok(true)
    }
}
