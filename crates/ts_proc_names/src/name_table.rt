//! Names, each found by its text.

ghost use Rattle.std.specs.Prelude.{◌≡◌, ◌≤◌, ◌<◌, ◌^◌, ℕ, List, length, map, take, IfOk};
ghost use Rattle.ts_trees.specs.declared.word.Word.{Word};
ghost use Rattle.ts_proc_names.specs.Places.{place_below};

use mate_num::{Name, NoMemory};
use std::alloc::Global;
use std::collections::BTreeMap;
use ts_trees::{Proc, Word};

/// The first place of each of some names, counted from 0. It borrows the names, and finds one by the order of their
/// texts: the time that this takes grows with the logarithm of their number, whatever the names are.
#[derive(Drop)]
pub struct NameTable<'a> {
    numbers: BTreeMap<&'a str, usize>,
}

impl<'a> NameTable<'a> {
    ghost use Rattle.std.specs.Prelude.{OnOk, None, Some, if◌then◌else◌, bytes_eq, is_none, Option};
    ghost use Rattle.std.specs.Map.{update};
    ghost use Rattle.ts_proc_names.specs.Places.{place_of_name};
    ghost use Rattle.ts_proc_names.specs.Numbers.{number_of_name, kept_or, Tabulates};

    // An empty table. It takes no memory.
    fn new(alloc: Global) -> NameTable<'a>
        ensures { (name : List ℕ) → number_of_name result name ≡ None }
    {
        NameTable {
            numbers: BTreeMap::new(alloc),
        }
    }

    /// The table of the names of parameters.
    pub fn of_words(alloc: Global, words: &'a [Word]) -> Result<NameTable<'a>, NoMemory>
        ensures { IfOk result (λ table. Tabulates table (map (λ w. w.name) words.now)) }
    {
        let mut table = NameTable::new(alloc);
        for (place, word) in words.iter().enumerate() {
            table.add(&word.name, place)?;
        }
        Ok(table)
    }

    /// The table of the names of procedures.
    pub fn of_procs(alloc: Global, procs: &'a [Proc]) -> Result<NameTable<'a>, NoMemory>
        ensures { IfOk result (λ table. Tabulates table (map (λ p. p.name.name) procs.now)) }
    {
        let mut table = NameTable::new(alloc);
        for (place, proc) in procs.iter().enumerate() {
            table.add(&proc.name.name, place)?;
        }
        Ok(table)
    }

    // Adds a name with its place, unless it is in the table.
    fn add(&mut self, name: &'a Name, place: usize) -> Result<(), NoMemory>
        ensures { OnOk result ((q : List ℕ) → number_of_name self.new q ≡ kept_or (number_of_name self.old q) (bytes_eq q name.now) place) }
    {
        let name = name.as_str();
        if self.numbers.contains_key(name) {
            return Ok(());
        }
        self.numbers.insert(name, place)?;
        Ok(())
    }

    /// The place of a name; None exactly if it isn't one of the names.
    pub fn get(&self, name: &Name) -> Option<usize>
        ensures { result ≡ number_of_name self.now name.now }
    {
        self.numbers.get(name.as_str()).copied()
    }

    /// The place of a name among the first `count` names; None exactly if it isn't one of them.
    pub fn among_first(&self, count: usize, name: &Name) -> Option<usize>
        ensures { (names : List (List ℕ)) → Tabulates self.now names → result ≡ place_of_name (take count names) name.now }
    {
        below(count, self.get(name))
    }
}

/// A place, if it is below a count.
pub(crate) fn below(count: usize, place: Option<usize>) -> Option<usize>
    ensures { result ≡ place_below count place }
{
    match place {
        None => None,
        Some(place) => { if place < count { Some(place) } else { None } }
    }
}
