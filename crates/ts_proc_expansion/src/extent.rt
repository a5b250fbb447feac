//! How large the expansions of bodies are, computed from those of the procedures declared before.

ghost use Rattle.std.specs.Prelude.{◌≡◌, min, take, IfOk};
ghost use Rattle.ts_trees.specs.Seen.{act_of, acts_of, trees_of};
ghost use Rattle.ts_proc_names.specs.Places.{declared_as};
ghost use Rattle.ts_proc_renaming.specs.Renaming.{Hiding};
ghost use Rattle.ts_proc_expansion.specs.Expansion.{expanded_act, expanded_acts, body_called};
ghost use Rattle.ts_proc_expansion.specs.Extents.{extent_of as extent_of_acts, body_extents};
ghost use Rattle.ts_proc_expansion.specs.Plan.{bodies_of};

use mate_num::NoMemory;
use std::alloc::Global;
use ts_proc_names::Heads;
use ts_trees::{Args, Block, Stmt, Word};

/// The count of an expansion's statements stops here.
pub(crate) const COUNT_MAX: u32 = 1_000_000;

/// How large statements are: how many there are, those inside blocks counted, up to `COUNT_MAX`; and how deep their blocks
/// nest, up to `u32::MAX`.
#[derive(Clone, Copy)]
pub struct Extent {
    pub count: u32,
    pub depth: u32,
}

impl Extent {
    ghost use Rattle.std.specs.Prelude.{◌≡◌, ◌+◌, min, max};
    ghost use Rattle.ts_proc_expansion.specs.declared.extent.TheConstants.{COUNT_MAX};

    fn of(count: u32) -> Extent
        ensures { result ≡ record { count = count; depth = 0 } }
    {
        Extent { count, depth: 0 }
    }

    // Both, one after the other.
    fn then(self, other: Extent) -> Extent
        ensures count { result.count ≡ min COUNT_MAX (self.count + other.count) }
        ensures depth { result.depth ≡ max self.depth other.depth }
    {
        Extent {
            count: self.count.saturating_add(other.count).min(COUNT_MAX),
            depth: self.depth.max(other.depth),
        }
    }

    // A statement with these inside it.
    fn within(self) -> Extent
        ensures count { result.count ≡ min COUNT_MAX (1 + self.count) }
        ensures depth { result.depth ≡ min 4294967295 (1 + self.depth) }
    {
        Extent {
            count: self.count.saturating_add(1).min(COUNT_MAX),
            depth: self.depth.saturating_add(1),
        }
    }
}

/// The extent of each procedure's body.
pub(crate) fn extents(alloc: Global, heads: &Heads) -> Result<Vec<Extent>, NoMemory>
    ensures { IfOk result (λ extents. extents.items ≡ body_extents (bodies_of heads.now.procs.now)) }
{
    let mut extents = Vec::new(alloc);
    for (place, proc) in heads.procs.iter().enumerate() {
        let extent = block_extent(heads, extents.as_slice(), place, &proc.body);
        extents.push(extent)?;
    }
    Ok(extents)
}

/// The extent of a block's expansion, after `count` procedures, whose bodies have these extents.
#[cycle(block)]
pub(crate) fn block_extent(heads: &Heads, extents: &[Extent], count: usize, stmts: &Block) -> Extent
    requires { extents.now ≡ body_extents (take count (bodies_of heads.now.procs.now)) }
    ensures { let known = take count (bodies_of heads.now.procs.now) in
        (h : Hiding) → result ≡ extent_of_acts (expanded_acts known h (acts_of stmts.now)) }
{
    let mut extent = Extent::of(0);
    for stmt in stmts.as_slice() {
        extent = extent.then(extent_of(heads, extents, count, stmt));
    }
    extent
}

#[cycle(block)]
fn extent_of(heads: &Heads, extents: &[Extent], count: usize, stmt: &Stmt) -> Extent
    requires { extents.now ≡ body_extents (take count (bodies_of heads.now.procs.now)) }
    ensures { let known = take count (bodies_of heads.now.procs.now) in
        (h : Hiding) → result ≡ extent_of_acts (expanded_act known h (act_of stmt.now)) }
{
    match stmt {
        Stmt::Set(..)
        | Stmt::SetItem(..)
        | Stmt::Append(..)
        | Stmt::Take(..)
        | Stmt::Clear(_)
        | Stmt::Do(..) => Extent::of(1),
        Stmt::If(_, body, None) => block_extent(heads, extents, count, body).within(),
        Stmt::If(_, body, Some(other)) => {
            let body = block_extent(heads, extents, count, body);
            let other = block_extent(heads, extents, count, other);
            body.then(other).within()
        }
        Stmt::For(_, body, _) => block_extent(heads, extents, count, body).within(),
        Stmt::While(_, body) => block_extent(heads, extents, count, body).within(),
        Stmt::Run(name, args) => call_extent(heads, extents, count, name, args),
    }
}

// The extent of a `do`: an assignment for each argument, and the procedure's body.
fn call_extent(heads: &Heads, extents: &[Extent], count: usize, name: &Word, args: &Args) -> Extent
    requires { extents.now ≡ body_extents (take count (bodies_of heads.now.procs.now)) }
    ensures { let callee = declared_as (take count (bodies_of heads.now.procs.now)) name.now.name in
        (h : Hiding) → result ≡ extent_of_acts (body_called h name.now (trees_of args.now) callee) }
{
    match heads.place(count, &name.name) {
        None => Extent::of(0),
        Some(place) => {
            let assigned = args.len().min(heads.procs[place].params.len());
            Extent::of(assigned.min(COUNT_MAX as usize) as u32).then(extents[place])
        }
    }
}
