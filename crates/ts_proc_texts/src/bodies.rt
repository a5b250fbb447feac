//! The procedures of a script, with the names that are hidden in the body of each.

ghost use Rattle.std.specs.Prelude.{◌≡◌, ◌<◌, length, get_or, IfOk};
ghost use Rattle.ts_proc_renaming.specs.Renaming.{nothing_hidden};
ghost use Rattle.ts_proc_renaming.specs.Hidden.{hiding_of};
ghost use Rattle.ts_proc_texts.specs.Hidings.{hiding_at, AreHidings};

use mate_num::NoMemory;
use std::alloc::Global;
use ts_proc_expansion::Plan;
use ts_proc_renaming::Hidden;
use ts_trees::Proc;

/// The plan of a script's procedures, and the parameters that hide names in the body of each, and in the script's statements.
#[derive(Drop)]
pub(crate) struct Bodies<'a> {
    pub plan: Plan<'a>,
    hidden: Vec<Hidden<'a>>,
    nothing: Hidden<'a>,
    ghost each: { length hidden.items ≡ length plan.heads.procs.now },
    ghost are: { AreHidings plan.heads.procs.now hidden.items },
    ghost none: { hiding_of nothing ≡ nothing_hidden },
}

impl<'a> Bodies<'a> {
    /// The procedures of a plan. `NoMemory` is the only refusal.
    pub fn of(alloc: Global, plan: Plan<'a>) -> Result<Bodies<'a>, NoMemory>
        ensures { IfOk result (λ bodies. bodies.plan ≡ plan.entry) }
    {
        let hidden = hidings(alloc, &plan)?;
        let nothing = Hidden::of(alloc, 0, &[])?;
        Ok(Bodies {
            plan,
            hidden,
            nothing,
        })
    }

    /// The parameters that hide names in the body of the procedure at a place; none do if no procedure is there.
    pub fn hidden(&self, place: usize) -> &Hidden<'a>
        ensures { hiding_of result.now ≡ hiding_at self.now.plan.heads.procs.now place }
    {
        if place < self.hidden.len() {
            &self.hidden[place]
        } else {
            &self.nothing
        }
    }
}

// The parameters that hide names in each body.
fn hidings<'a>(alloc: Global, plan: &Plan<'a>) -> Result<Vec<Hidden<'a>>, NoMemory>
    ensures each { IfOk result (λ r. length r.items ≡ length plan.now.heads.procs.now) }
    ensures are { IfOk result (λ r. AreHidings plan.now.heads.procs.now r.items) }
{
    let mut hidden = Vec::new(alloc);
    for (place, proc) in plan.heads.procs.iter().enumerate() {
        hidden.push(hiding(alloc, plan, place, proc)?)?;
    }
    Ok(hidden)
}

// Those of the procedure at a place.
fn hiding<'a>(
    alloc: Global,
    plan: &Plan<'a>,
    place: usize,
    proc: &'a Proc,
) -> Result<Hidden<'a>, NoMemory>
    requires within { place < length plan.now.heads.procs.now }
    requires is { proc.now ≡ get_or plan.now.heads.procs.now place proc.now }
    ensures { IfOk result (λ hidden. hiding_of hidden ≡ hiding_at plan.now.heads.procs.now place) }
{
    let params = proc.params.as_slice();
    Ok(Hidden::of(alloc, plan.firsts[place], params)?)
}
