//! What is still to be written of an expansion.

ghost use Rattle.std.specs.Prelude.{◌≡◌, ◌+◌, ◌++◌, [], ⊤, List, take, MatchOption};
ghost use Rattle.ts_trees.specs.declared.procedure.Proc.{Proc};
ghost use Rattle.ts_trees.specs.Seen.{act_of};
ghost use Rattle.ts_proc_renaming.specs.Hidden.{hiding_of};

use ts_proc_renaming::Hidden;
use ts_trees::Stmt;

/// Statements that are still to be written, after `count` procedures, and the parameters that hide names in them.
#[derive(Drop)]
pub struct Pending<'a> {
    pub stmts: &'a [Stmt],
    pub count: usize,
    pub hidden: Hidden<'a>,
}

impl<'a> Pending<'a> {
    ghost use Rattle.ts_proc_expansion.specs.Expansion.{expanded_act};
    ghost use Rattle.ts_proc_expansion.specs.Plan.{bodies_of};
    ghost use Rattle.ts_procs.specs.Pending.{acts_left, steps_left, steps_of_bodies, act_steps};

    /// The first of the statements, and the others; None exactly if there are none.
    pub fn split_first(self) -> Option<(&'a Stmt, Pending<'a>)>
        ensures left { (procs : List Proc) → MatchOption result (acts_left procs self.entry ≡ [])
            (λ r. acts_left procs self.entry ≡ expanded_act (take r.1.count (bodies_of procs)) (hiding_of r.1.hidden) (act_of r.0.now)
            ++ acts_left procs r.1) }
        ensures steps { (procs : List Proc) → MatchOption result ⊤
            (λ r. steps_left procs self.entry ≡ act_steps (take r.1.count (steps_of_bodies procs)) (act_of r.0.now)
            + steps_left procs r.1) }
    {
        let mut rest = self;
        let (stmt, stmts) = rest.stmts.split_first()?;
        rest.stmts = stmts;
        Some((stmt, rest))
    }
}
