//! Laws of scripts and their programs: a file has one script, and the files that a script names have one list of programs, which are
//! right, unless memory runs out.

ghost use Rattle.std.specs.Prelude.{◌≡◌, Bool, List, ℕ, Ok};
ghost use Rattle.mate_files.specs.Files.{Names};
ghost use Rattle.mate_journal.specs.declared.program.Program.{Program};
ghost use Rattle.command_steps.specs.OneAnswer.{AnswersAgree, steady};
ghost use Rattle.command_steps.specs.Parts.{Folder};
ghost use Rattle.node_programs.specs.ScriptSteps.{AreProgramsOf, steps_of};
ghost use Rattle.node_programs.specs.Sources.{meaning_by};
ghost use Rattle.command_programs.specs.Numbers.{NamesInOrder};
ghost use Rattle.command_programs.specs.Programs.{script_programs};
ghost use Rattle.command_programs.specs.SamePrograms.{SamePrograms};
ghost use Rattle.command_programs.specs.Scripts.{script};
ghost use Rattle.script_steps.specs.Steps.{NodeScript, IsRightSteps};
ghost use Rattle.vm_shape.specs.declared.description.Description.{Description};

/// A steady file has one script, or one refusal.
pub fn file_has_one_script()
    ensures { (names : Names) (d : Description) (name : List ℕ)
        → AnswersAgree ◌≡◌ (script (steady names) d name) (script (steady names) d name) }
{}

/// The steady files that a script names have one list of programs, or one refusal.
pub fn files_have_one_list()
    ensures { (names : Names) (d : Description) (fold : Bool) (s : NodeScript)
        → AnswersAgree SamePrograms (script_programs (steady names) d fold s) (script_programs (steady names) d fold s) }
{}

/// The programs that the files of a right script give are right, and each is of its line.
pub fn files_give_right_programs()
    ensures { (f : Folder) (d : Description) (fold : Bool) (s : NodeScript) (ps : List Program) → IsRightSteps d s → NamesInOrder s
        → script_programs f d fold s (Ok ps) → AreProgramsOf d s ps }
{}

/// The same programs make the same steps of a script.
pub fn same_programs_make_the_same_steps()
    ensures { (s : NodeScript) (ps qs : List Program) → SamePrograms ps qs → steps_of s ps ≡ steps_of s qs }
{}

/// The same programs mean the same.
pub fn same_programs_mean_the_same()
    ensures { (d : Description) (ps qs : List Program) → SamePrograms ps qs → meaning_by d ps ≡ meaning_by d qs }
{}
