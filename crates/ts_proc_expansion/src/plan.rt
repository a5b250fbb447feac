//! What an expansion knows of the procedures of its script.

ghost use Rattle.std.specs.Prelude.{◌≡◌, ◌<◌, ◌^◌, map, IfOk};
ghost use Rattle.ts_trees.specs.Seen.{procedure_of};
ghost use Rattle.ts_proc_names.specs.Heads.{parameter_count};
ghost use Rattle.ts_proc_expansion.specs.Extents.{body_extents};
ghost use Rattle.ts_proc_expansion.specs.Plan.{bodies_of, firsts_of};

use crate::extent::{Extent, extents};
use mate_num::NoMemory;
use std::alloc::Global;
use ts_proc_names::Heads;
use ts_trees::{Proc, Stmt};

/// The procedures of a script, with the number of each one's first parameter, the extent of its body, and how many parameters
/// they have.
#[derive(Drop)]
pub struct Plan<'a> {
    pub heads: Heads<'a>,
    pub firsts: Vec<u32>,
    pub extents: Vec<Extent>,
    pub parameters: u32,
    ghost numbered: { firsts.items ≡ firsts_of (bodies_of heads.procs.now) },
    ghost measured: { extents.items ≡ body_extents (bodies_of heads.procs.now) },
    ghost counted: { parameters ≡ parameter_count (map procedure_of heads.procs.now) },
    ghost few: { parameter_count (map procedure_of heads.procs.now) < 2 ^ 32 },
}

impl<'a> Plan<'a> {
    /// The plan of these procedures. `NoMemory` is the only refusal.
    pub fn of(alloc: Global, procs: &'a [Proc]) -> Result<Plan<'a>, NoMemory>
        requires { parameter_count (map procedure_of procs.now) < 2 ^ 32 }
        ensures { IfOk result (λ plan. plan.heads.procs.now ≡ procs.now) }
    {
        let heads = Heads::of(alloc, procs)?;
        let extents = extents(alloc, &heads)?;
        let (firsts, parameters) = numbered(alloc, procs)?;
        Ok(Plan {
            heads,
            firsts,
            extents,
            parameters,
        })
    }

    /// Whether some procedure is empty, or does nothing but run another one.
    pub fn has_idle(&self) -> bool {
        let has_empty = self.extents.iter().any(|body| body.count == 0);
        let has_passing = self
            .heads
            .procs
            .iter()
            .any(|proc| matches!(proc.body.as_slice(), [Stmt::Run(_, _)]));
        has_empty || has_passing
    }
}

// The number of each procedure's first parameter, and how many parameters there are.
fn numbered(alloc: Global, procs: &[Proc]) -> Result<(Vec<u32>, u32), NoMemory>
    requires { parameter_count (map procedure_of procs.now) < 2 ^ 32 }
    ensures firsts { IfOk result (λ r. r.0.items ≡ firsts_of (bodies_of procs.now)) }
    ensures count { IfOk result (λ r. r.1 ≡ parameter_count (map procedure_of procs.now)) }
{
    let mut firsts = Vec::new(alloc);
    let mut next: u32 = 0;
    for proc in procs {
        firsts.push(next)?;
        next += proc.params.len() as u32;
    }
    Ok((firsts, next))
}
