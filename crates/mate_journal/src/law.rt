//! The laws of a node's journal by name, and a verdict on a report.

ghost use Rattle.std.specs.Prelude.{◌≡◌};

/// The laws of a node's journal, in the order in which they are tested. Each variant has the name that a refusal gives it.
#[derive(Clone, Copy)]
pub enum Law {
    /// Following: entries follow one another as they may, and stamps never fall.
    D7,
    /// Images: what is installed is one of the programs, and newer than what was installed for its handler.
    Image,
    /// Serial replay: the invocations, run whole and one at a time in the order of their ends, give what the journal records.
    D8,
    /// Stores seen: a store that is shown has the values that follow from the journal.
    D9,
    /// Grant rule: an invocation waits to start only for conflicting ones.
    D10,
    /// Device order: in each era the calls to a device are in order. It is never the first that a journal fails.
    D11,
}

impl Law {
    ghost use Rattle.mate_journal.specs.LawWords.{law_word};

    /// Its word in a refusal.
    pub fn word(self) -> &'static str
        ensures { result.now ≡ law_word self }
    {
        match self {
            Law::D7 => "d7",
            Law::Image => "image",
            Law::D8 => "d8",
            Law::D9 => "d9",
            Law::D10 => "d10",
            Law::D11 => "d11",
        }
    }
}

/// Whether a report shows serial behaviour.
#[derive(Clone, Copy)]
pub enum Verdict {
    /// Each node's journal keeps each law.
    Serial,
    /// The lowest node whose journal fails a law, and the first law that it fails.
    Refuted { node: u8, law: Law },
}
