//! Expressions: all their parts are evaluated, from left to right.

ghost use Rattle.std.specs.Prelude.{◌≡◌, ◌≤◌, [], ◌∷◌, ◌++◌, length};
ghost use Rattle.ts_checked.specs.Expression.{arguments, Call};
ghost use Rattle.ts_checked.specs.TreeOf.{expr_tree, args_trees};
ghost use Rattle.ts_semantics.specs.State.{then_do, first_ten, Done};
ghost use Rattle.ts_semantics.specs.Meaning.{value_of, values_of};
ghost use Rattle.ts_meaning.specs.Follows.{FollowsMeaning};

use crate::evaluator::{Evaluator, Stop};
use mate_num::{BufId, FunId, Num16, Payload};
use ts_checked::{CArgs, CExpr};
use ts_semantics::apply;

// One argument more; there is no room for one past the tenth.
#[tactic(auto, using(crate::proofs::ArgumentLemmas::full))]
fn push_within_ten(values: &mut Payload, value: i16)
    ensures values { values.new ≡ first_ten (values.old.items ++ value ∷ []) }
    ensures fits { length values.new.items ≤ 10 }
{
    if !values.is_full() {
        values.push(value);
    }
}

impl Evaluator<'_> {
    /// The value of an expression.
    #[cycle(value)]
    pub(crate) fn value(&mut self, expr: &CExpr) -> Result<i16, Stop>
        ensures follows { FollowsMeaning (value_of (expr_tree expr.now)) self.old result self.new }
        ensures turns { self.new.turns ≡ self.old.turns }
    {
        match expr {
            CExpr::Num(number) => Ok(*number),
            CExpr::Shared(variable) => Ok(self.shared(*variable)),
            CExpr::Private(private) => Ok(self.private(*private)),
            CExpr::Item(buffer, index) => {
                let index = self.value(index)?;
                self.item(*buffer, index)
            }
            CExpr::Size(buffer) => Ok(self.size(*buffer)),
            CExpr::MsgItem(index) => {
                let index = self.value(index)?;
                self.message_item(index)
            }
            CExpr::MsgSize => Ok(self.msg.len() as i16),
            CExpr::Call(fun, args) => self.call(*fun, args),
            CExpr::SendBuf(fun, buffer) => self.ask(*fun, self.payload(*buffer)),
            CExpr::Neg(of) => {
                let value = self.value(of)?;
                Ok(Num16(value).neg().0)
            }
            CExpr::Not(of) => {
                let value = self.value(of)?;
                Ok(Num16(value).not().0)
            }
            CExpr::Two(op, left, right) => {
                let left = self.value(left)?;
                let right = self.value(right)?;
                Ok(apply(*op, left, right)?)
            }
        }
    }

    /// The result of a call.
    #[cycle(value)]
    pub(crate) fn call(&mut self, fun: FunId, args: &CArgs) -> Result<i16, Stop>
        ensures follows { FollowsMeaning (value_of (Call fun (arguments (args_trees args.now)))) self.old result self.new }
        ensures turns { self.new.turns ≡ self.old.turns }
    {
        let values = self.values(args)?;
        self.ask(fun, values)
    }

    // The values of arguments.
    #[cycle(value)]
    #[tactic(auto, using(crate::proofs::ArgumentLemmas::gathering))]
    fn values(&mut self, args: &CArgs) -> Result<Payload, Stop>
        ensures follows { let values_in = values_of (arguments (args_trees args.now)) in
            FollowsMeaning (λ s. then_do (values_in s) (λ values s. Done (first_ten values) s)) self.old result self.new }
        ensures turns { self.new.turns ≡ self.old.turns }
    {
        let mut values = Payload::new();
        for arg in args.items.as_slice() {
            let value = self.value(arg)?;
            push_within_ten(&mut values, value);
        }
        Ok(values)
    }
}
