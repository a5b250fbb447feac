//! What happened on the air and is forgotten. It exists in proofs alone.

ghost use Rattle.std.specs.Prelude.{◌≡◌, [], ◌++◌, List};
ghost use Rattle.std.specs.Borrow.{ftrue};
ghost use Rattle.mate_journal.specs.declared.air.Aired.{Aired};

use mate_journal::Airs;
use std::marker::Model;

/// Records that are nowhere in memory. It takes no bytes, and nothing is known of it but what clauses say.
#[derive(Drop)]
pub struct PastAir {
    pub ghost air: { List Aired },
}

impl Model for PastAir {
    ghost also_owns = { λ _. ftrue };
}

impl PastAir {
    /// Nothing was forgotten.
    pub fn new() -> PastAir
        ensures { result.air ≡ [] }
    {
        PastAir {}
    }

    /// What was kept until now is forgotten too. It does nothing.
    pub fn with(_before: &PastAir, _kept: &Airs) -> PastAir
        ensures { result.air ≡ _before.now.air ++ _kept.now }
    {
        PastAir {}
    }
}
