//! The parameters of a procedure.

ghost use Rattle.std.specs.Prelude.{◌≡◌, map, position, bytes_eq};
ghost use Rattle.std.specs.Option.{ForSome};
ghost use Rattle.ts_proc_names.specs.Numbers.{Tabulates};

use crate::name_table::{NameTable, below};
use mate_num::{Name, NoMemory};
use std::alloc::Global;
use ts_trees::Word;

/// The parameters of a head, each found by its name.
#[derive(Drop)]
pub struct Parameters<'a> {
    pub words: &'a [Word],
    /// The place of each, unless they are so few that a search goes through them.
    places: Option<NameTable<'a>>,
    ghost tabulated: { ForSome places (λ table. Tabulates table (map (λ w. w.name) words.now)) },
}

impl<'a> Parameters<'a> {
    ghost use Rattle.std.specs.Prelude.{IfOk, take};
    ghost use Rattle.ts_proc_names.specs.Places.{place_of_name};

    /// At most this many are searched one by one.
    const FEW: usize = 8;

    /// The parameters with these names. `NoMemory` is the only refusal.
    pub fn of(alloc: Global, words: &'a [Word]) -> Result<Parameters<'a>, NoMemory>
        ensures { IfOk result (λ parameters. parameters.words.now ≡ words.now) }
    {
        let places = if words.len() > Parameters::FEW {
            Some(NameTable::of_words(alloc, words)?)
        } else {
            None
        };
        Ok(Parameters { words, places })
    }

    /// The place of the first parameter of a name, counted from 0; None exactly if there is none.
    pub fn place(&self, name: &Name) -> Option<usize>
        ensures { result ≡ place_of_name (map (λ w. w.name) self.now.words.now) name.now }
    {
        match &self.places {
            None => first_named(self.words, name),
            Some(places) => places.get(name),
        }
    }

    /// The same among the first `count` parameters.
    pub fn among_first(&self, count: usize, name: &Name) -> Option<usize>
        ensures { result ≡ place_of_name (take count (map (λ w. w.name) self.now.words.now)) name.now }
    {
        below(count, self.place(name))
    }
}

// The place of the first of some words that has a name.
fn first_named(words: &[Word], name: &Name) -> Option<usize>
    ensures { result ≡ position (λ w. bytes_eq name.now w.name) words.now }
{
    words
        .iter()
        .position(|word| name.as_bytes() == word.name.as_bytes())
}
