//! The law that `audit` finds serial what a run wrote.

ghost use Rattle.std.specs.Prelude.{◌≡◌, ◌≤◌, List, ℕ, Bool, false, length, codes, Some, Result, Ok};
ghost use Rattle.mate_files.specs.declared.files.TheConstants.{FILE_MAX};
ghost use Rattle.command_laws.specs.Texts.{IsOutputText};
ghost use Rattle.mate_cli.specs.Audit.{audit};
ghost use Rattle.mate_cli.specs.Node.{node};
ghost use Rattle.mate_cli.specs.Worlds.{sim};
ghost use Rattle.command_documents.specs.Owed.{Owed, writes};
ghost use Rattle.mate_files.specs.Files.{Names};
ghost use Rattle.command_refusals.specs.declared.refusal.Refusal.{Refusal};
ghost use Rattle.command_steps.specs.OneAnswer.{steady};

/// `audit` finds serial what `node` and `sim` wrote. Suppose that the files are steady, the command owes a run, a text is
/// that of the run's whole report or of the one up to where its log was full, and a file holds this text, of
/// 1,048,576 bytes or less: then `audit` with the same machine, the same script and this file owes `serial` and a
/// line feed, unless memory runs out.
pub fn written_runs_are_found_serial()
    ensures nodes { (names : Names) (fold : Bool) (vm script report : List ℕ) (o : Owed) (full : Bool) (bs : List ℕ)
        (answer : Result Owed Refusal) →
        node (steady names) fold false vm script (Ok o) → IsOutputText full o bs → names report ≡ Some bs → length bs ≤ FILE_MAX
        → audit (steady names) fold vm script report answer → writes (codes "serial\n") answer }
    ensures worlds { (names : Names) (fold : Bool) (vm script report : List ℕ) (o : Owed) (full : Bool) (bs : List ℕ)
        (answer : Result Owed Refusal) →
        sim (steady names) fold false vm script (Ok o) → IsOutputText full o bs → names report ≡ Some bs → length bs ≤ FILE_MAX
        → audit (steady names) fold vm script report answer → writes (codes "serial\n") answer }
{}
