//! The names of a procedure's body, printed as what they are in the expansion.

ghost use Rattle.std.specs.Prelude.{◌≡◌};
ghost use Rattle.ts_proc_renaming.specs.Renaming.{renamed};
ghost use Rattle.ts_proc_renaming.specs.Hidden.{hiding_of};

use ts_proc_renaming::Hidden;
use ts_syntax::Naming;
use ts_trees::Word;

/// A name that a parameter hides is printed as that parameter's variable.
#[derive(Clone, Copy)]
pub(crate) struct Renamed<'b, 'a> {
    pub hidden: &'b Hidden<'a>,
}

impl<'b, 'a> Naming for Renamed<'b, 'a> {
    ghost named = { λ naming w. renamed (hiding_of naming.hidden.now) w };

    fn word(&self, word: &Word) -> Word
        ensures { result ≡ renamed (hiding_of self.now.hidden.now) word.now }
    {
        self.hidden.word(word)
    }
}
