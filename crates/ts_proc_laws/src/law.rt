//! The law that the expansion of a script with procedures means what the script does.

ghost use Rattle.ts_proc_names.specs.Named.{written_of};
ghost use Rattle.ts_proc_laws.specs.FrameLaw.{RunsAsExpanded, RunsAsAnswered};

use ts_proc_names::PScript;

/// The law of frames: if the expansion of a script with procedures is accepted for a machine, its run has the end,
/// the store and the calls of the script's run with frames, for every store, message, list of answers and number of
/// turns. It holds for what `expand` returns, and for the expansion of a script that is too large for `expand`.
pub fn frame_law(script: &PScript)
    ensures runs { RunsAsExpanded (written_of script.now) }
    ensures answered { RunsAsAnswered (written_of script.now) }
{}
