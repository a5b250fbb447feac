//! Names that parameters hide.

ghost use Rattle.std.specs.Prelude.{◌≡◌, ◌≤◌, ◌+◌, ◌^◌, length};

use crate::numbers::parameter_name;
use mate_num::NoMemory;
use std::alloc::Global;
use ts_proc_names::Parameters;
use ts_trees::Word;

/// The parameters that hide names within a body, and the number of the first.
#[derive(Drop)]
pub struct Hidden<'a> {
    first: u32,
    params: Parameters<'a>,
    ghost few: { first + length params.words.now ≤ 2 ^ 32 },
}

impl<'a> Hidden<'a> {
    ghost use Rattle.std.specs.Prelude.{IfOk};
    ghost use Rattle.ts_proc_renaming.specs.Renaming.{renamed};
    ghost use Rattle.ts_proc_renaming.specs.Hidden.{hiding_of};

    /// The names that these parameters hide; the first parameter has the number `first`. `NoMemory` is the only refusal.
    pub fn of(alloc: Global, first: u32, params: &'a [Word]) -> Result<Hidden<'a>, NoMemory>
        requires { first + length params.now ≤ 2 ^ 32 }
        ensures { IfOk result (λ hidden. hiding_of hidden ≡ record { first = first; params = params.now }) }
    {
        let params = Parameters::of(alloc, params)?;
        Ok(Hidden { first, params })
    }

    /// The name of a variable or a buffer, as it is in the expansion.
    pub fn word(&self, word: &Word) -> Word
        ensures { result ≡ renamed (hiding_of self.now) word.now }
    {
        let name = match self.params.place(&word.name) {
            None => word.name.copy(),
            Some(place) => parameter_name(self.first + place as u32),
        };
        Word {
            name,
            place: word.place,
        }
    }
}
