//! The names that are printed.

ghost use Rattle.std.specs.Prelude.{◌≡◌};
ghost use Rattle.ts_trees.specs.declared.word.Word.{Word};

use ts_trees::Word;

/// What the names of variables and buffers are printed as. Those of functions and procedures are printed as they are.
pub trait Naming {
    // The name that stands for a name.
    ghost named: { Self → Word → Word };

    /// The name that is printed for this one.
    fn word(&self, word: &Word) -> Word
        ensures { result ≡ named self.now word.now };
}

/// All names are printed as they are.
#[derive(Clone, Copy)]
pub struct AsWritten;

impl Naming for AsWritten {
    ghost use Rattle.std.specs.Prelude.{◌≡◌};

    ghost named = { λ _ w. w };

    fn word(&self, word: &Word) -> Word
        ensures { result ≡ word.now }
    {
        Word {
            name: word.name.copy(),
            place: word.place,
        }
    }
}
