//! Which procedure is run instead of another.

ghost use Rattle.std.specs.Prelude.{◌≡◌, ◌<◌, length, get_or, take};
ghost use Rattle.ts_trees.specs.Seen.{acts_of};
ghost use Rattle.ts_proc_expansion.specs.Live.{BecomesSame};
ghost use Rattle.ts_proc_expansion.specs.Plan.{bodies_of};
ghost use Rattle.ts_proc_expansion.specs.Targets.{IsTarget, AreTargets};

use ts_proc_names::Heads;
use ts_trees::{Proc, Stmt};

/// A procedure whose body expands to the same as that of the one at a place, which has these statements: the
/// procedure itself, unless all it does is run one without parameters; then that one's target, by those of the
/// procedures before it. So a chain of such procedures is followed in one step.
pub(crate) fn target(
    heads: &Heads,
    targets: &[usize],
    place: usize,
    proc: &Proc,
    body: &[Stmt],
) -> usize
    requires within { place < length heads.now.procs.now }
    requires there { proc.now ≡ get_or heads.now.procs.now place proc.now }
    requires same { BecomesSame (take place (bodies_of heads.now.procs.now)) (acts_of body.now) (acts_of proc.now.body) }
    requires each { length targets.now ≡ place }
    requires are { AreTargets heads.now.procs.now targets.now }
    ensures { IsTarget heads.now.procs.now place result }
{
    let [stmt] = body else {
        return place;
    };
    let Stmt::Run(name, _args) = stmt else {
        return place;
    };
    let Some(run) = heads.place(place, &name.name) else {
        return place;
    };
    if heads.procs[run].params.len() > 0 {
        return place;
    }
    targets[run]
}
