//! The heads of the procedures of a script.

ghost use Rattle.std.specs.Prelude.{map};
ghost use Rattle.ts_proc_names.specs.Numbers.{Tabulates};

use crate::name_table::NameTable;
use mate_num::{Name, NoMemory};
use std::alloc::Global;
use ts_trees::Proc;

/// The procedures of a script, each found by its name.
#[derive(Drop)]
pub struct Heads<'a> {
    pub procs: &'a [Proc],
    places: NameTable<'a>,
    ghost tabulated: { Tabulates places (map (λ p. p.name.name) procs.now) },
}

impl<'a> Heads<'a> {
    ghost use Rattle.std.specs.Prelude.{◌≡◌, ◌<◌, take, length, IfOk, IfSome};
    ghost use Rattle.ts_proc_names.specs.Places.{place_of_name, declared_as};
    ghost use Rattle.ts_proc_names.specs.Heads.{heads_of};

    /// The heads of these procedures. `NoMemory` is the only refusal.
    pub fn of(alloc: Global, procs: &'a [Proc]) -> Result<Heads<'a>, NoMemory>
        ensures { IfOk result (λ heads. heads.procs.now ≡ procs.now) }
    {
        let places = NameTable::of_procs(alloc, procs)?;
        Ok(Heads { procs, places })
    }

    /// The place of the first procedure of a name among the first `count`; None exactly if none of these has it.
    pub fn place(&self, count: usize, name: &Name) -> Option<usize>
        ensures value { result ≡ place_of_name (take count (map (λ p. p.name.name) self.now.procs.now)) name.now }
        ensures below { IfSome result (λ place. place < count) }
        ensures within { IfSome result (λ place. place < length self.now.procs.now) }
    {
        self.places.among_first(count, name)
    }

    /// How many parameters the first procedure of a name has, among the first `count`; None exactly if none of these has it.
    pub fn parameters(&self, count: usize, name: &Name) -> Option<usize>
        ensures { result ≡ declared_as (take count (heads_of self.now.procs.now)) name.now }
    {
        let place = self.place(count, name)?;
        Some(self.procs[place].params.len())
    }
}
