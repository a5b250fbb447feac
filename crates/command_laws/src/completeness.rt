//! Completeness: words and steady files are owed one answer, unless memory runs out.

ghost use Rattle.std.specs.Prelude.{◌≡◌, List, ℕ, Bool};
ghost use Rattle.mate_files.specs.Files.{Names};
ghost use Rattle.command_documents.specs.Check.{check};
ghost use Rattle.command_documents.specs.Compile.{compile};
ghost use Rattle.command_laws.specs.Completed.{Completes, IsUnhindered};
ghost use Rattle.command_documents.specs.Expand.{expand};
ghost use Rattle.command_documents.specs.Feed.{feed};
ghost use Rattle.mate_cli.specs.Audit.{audit};
ghost use Rattle.mate_cli.specs.Ends.{CallEnds, Owes, Sinks, task};
ghost use Rattle.command_documents.specs.Owed.{Owed};
ghost use Rattle.command_refusals.specs.declared.status.Status.{Status};
ghost use Rattle.mate_cli.specs.Node.{node};
ghost use Rattle.mate_cli.specs.Worlds.{made_run, sim};
ghost use Rattle.command_steps.specs.OneAnswer.{AnswersAgree, steady};
ghost use Rattle.command_steps.specs.Parts.{Folder};
ghost use Rattle.command_laws.specs.SameText.{SameText};
ghost use Rattle.command_laws.specs.Texts.{IsOutputText};
ghost use Rattle.command_documents.specs.Table.{opcode_table};

use report_laws::script_has_one_report;

/// Words name one task, or none.
pub fn words_have_one_task()
    ensures { (words : List (List ℕ)) → AnswersAgree ◌≡◌ (task words) (task words) }
{}

/// The command `table` has one answer if the files are steady, unless memory runs out.
pub fn table_has_one_answer()
    ensures { (names : Names) (vm : List ℕ) → AnswersAgree SameText (opcode_table (steady names) vm) (opcode_table (steady names) vm) }
{}

/// The command `compile` has one answer if the files are steady, unless memory runs out.
pub fn compile_has_one_answer()
    ensures { (names : Names) (fold : Bool) (vm handler : List ℕ) (version : ℕ) (name : List ℕ)
        → AnswersAgree SameText (compile (steady names) fold vm handler version name)
        (compile (steady names) fold vm handler version name) }
{}

/// The command `check` has one answer if the files are steady, unless memory runs out.
pub fn check_has_one_answer()
    ensures { (names : Names) (vm name : List ℕ) → AnswersAgree SameText (check (steady names) vm name) (check (steady names) vm name) }
{}

/// The command `expand` has one answer if the files are steady, unless memory runs out.
pub fn expand_has_one_answer()
    ensures { (names : Names) (name : List ℕ) → AnswersAgree SameText (expand (steady names) name) (expand (steady names) name) }
{}

/// The command `feed` has one answer if the files are steady, unless memory runs out.
pub fn feed_has_one_answer()
    ensures { (names : Names) (vm name : List ℕ) → AnswersAgree SameText (feed (steady names) vm name) (feed (steady names) vm name) }
{}

/// The command `node` has one answer if the files are steady, unless memory runs out: one run, or one summary.
pub fn node_has_one_answer()
    ensures { (names : Names) (fold short : Bool) (vm name : List ℕ)
        → AnswersAgree SameText (node (steady names) fold short vm name) (node (steady names) fold short vm name) }
{}

/// The command `sim` has one answer if the files are steady, unless memory runs out: the run of one world, or one summary.
pub fn sim_has_one_answer()
    ensures { (names : Names) (fold short : Bool) (vm name : List ℕ)
        → AnswersAgree SameText (sim (steady names) fold short vm name) (sim (steady names) fold short vm name) }
{
    script_has_one_report();
}

/// The same for the command `gen`.
pub fn made_run_has_one_answer()
    ensures { (names : Names) (fold short : Bool) (number : ℕ) (vm : List ℕ)
        → AnswersAgree SameText (made_run (steady names) fold short number vm) (made_run (steady names) fold short number vm) }
{
    script_has_one_report();
}

/// The command `audit` has one answer if the files are steady, unless memory runs out: programs that can't be told
/// apart judge the same journals alike, whatever room is left in the logs that were read.
pub fn audit_has_one_answer()
    ensures { (names : Names) (fold : Bool) (vm script report : List ℕ)
        → AnswersAgree SameText (audit (steady names) fold vm script report) (audit (steady names) fold vm script report) }
{}

/// Words and steady files are owed one output or one refusal, unless memory runs out.
pub fn words_have_one_answer()
    ensures { (names : Names) (words : List (List ℕ)) → AnswersAgree SameText (Owes (steady names) words) (Owes (steady names) words) }
{
    script_has_one_report();
}

/// Outputs that are the same have one text: so have all reports of one run that ended by itself.
pub fn same_outputs_have_one_text()
    ensures { (o o' : Owed) → SameText o o' → (full full' : Bool) (bs bs' : List ℕ) → IsOutputText full o bs → IsOutputText full' o' bs'
        → bs ≡ bs' }
{
    script_has_one_report();
}

/// If words and the bytes of the files are owed no refusal, no file fails to be read and the output's sink doesn't
/// fail, the call comes to its end: the whole text was written, or that of a run that a full log ended, or memory ran
/// out. So a body that always returns another status doesn't meet the contract of `mate`.
pub fn owed_output_comes()
    ensures { (f : Folder) (names : Names) (words : List (List ℕ)) (before now : ℕ) (s t : Sinks) (status : Status)
        → IsUnhindered f names words before now s t
        → CallEnds f words before now s t status → Completes names words s t status }
{}
