//! What was in a log that is forgotten. It exists in proofs alone.

ghost use Rattle.std.specs.Prelude.{◌≡◌};
ghost use Rattle.std.specs.Borrow.{ftrue};
ghost use Rattle.mate_journal.specs.Log.{Log};
ghost use Rattle.mate_journal.specs.OpenLog.{nothing, joined};

use crate::NodeLog;
use std::marker::Model;

/// A log that is nowhere in memory. It takes no bytes, and nothing is known of it but what clauses say.
#[derive(Drop)]
pub struct Past {
    pub ghost log: { Log },
}

impl Model for Past {
    ghost also_owns = { λ _. ftrue };
}

impl Past {
    /// Nothing was forgotten.
    pub fn new() -> Past
        ensures { result.log ≡ nothing }
    {
        Past {}
    }

    /// What was kept until now is forgotten too. It does nothing.
    pub fn with(_before: &Past, _kept: &NodeLog) -> Past
        ensures { result.log ≡ joined _before.now.log _kept.now }
    {
        Past {}
    }
}
