//! Copies of what stays as it is.

ghost use Rattle.std.specs.Prelude.{◌≡◌, IfOk};

use mate_num::NoMemory;
use std::alloc::Global;
use ts_trees::{Word, Words};

/// A copy of a name.
pub fn same(word: &Word) -> Word
    ensures { result ≡ word.now }
{
    Word {
        name: word.name.copy(),
        place: word.place,
    }
}

/// A copy of the names of a procedure's parameters.
pub fn same_words(alloc: Global, words: &[Word]) -> Result<Words, NoMemory>
    ensures { IfOk result (λ copy. copy ≡ words.now) }
{
    let mut copy = Words::new(alloc);
    for word in words {
        copy.push(same(word))?;
    }
    Ok(copy)
}
