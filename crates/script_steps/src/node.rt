//! The reader of node scripts.

ghost use Rattle.std.specs.Prelude.{◌≡◌, ◌<◌, ◌≤◌, ◌^◌, ℕ, List, length, IfOk, IfErr, OnOk};
ghost use Rattle.mate_files.specs.declared.files.TheConstants.{FILE_MAX};
ghost use Rattle.script_steps.specs.Lines.{split_words};
ghost use Rattle.mate_num.specs.declared.bounds.TheConstants.{PAYLOAD_MAX};
ghost use Rattle.script_steps.specs.Words.{ReadsWords, a_payload};
ghost use Rattle.script_steps.specs.Steps.{IsRightSteps};
ghost use Rattle.script_steps.specs.NodeScript.{an_install, a_load, a_post, a_step, an_answer, behind, behind_others, a_line, with_said};
ghost use Rattle.script_steps.specs.NodeScript.{newest_after, after_line, node_script_in};
ghost use Rattle.script_steps.specs.Script.{AnswersScript, FollowsLine};
ghost use Rattle.script_steps.specs.NodeReader.{progress_of, said_of, IsRightSaid, KeepsProgress};
ghost use Rattle.vm_shape.specs.declared.description.Description.{Description};

use crate::fault::{Cause, ScriptFault};
use crate::lines::Lines;
use crate::newest::{newest_of, note_newest};
use crate::steps::{Step, Steps};
use crate::words::{Words, spells};
use mate_num::HANDLERS_MAX;
use std::alloc::Global;
use vm_shape::Description;

/// The steps that the script in `bytes`, of at most 1,048,576 bytes, asks for.
///
/// Each line that isn't empty and doesn't begin with `#` is one step: `install HANDLER VERSION FILE`,
/// `load FILE`, `post HANDLER V ..`, `step CTX N`, `run`, `answer CTX V`, `show` or `reset`.
pub fn node_script(alloc: Global, desc: &Description, bytes: &[u8]) -> Result<Steps, ScriptFault>
    requires { length bytes.now ≤ FILE_MAX }
    ensures value { AnswersScript result (node_script_in desc.now bytes.now) }
    ensures right { IfOk result (λ steps. IsRightSteps desc.now steps) }
{
    let mut reader = Reader {
        steps: Steps::new(alloc),
        newest: [0; HANDLERS_MAX],
    };
    let mut lines = Lines::of(bytes);
    let mut number = 1;
    'lines: while let Some(line) = lines.next() {
        reader.line(desc, number, line)?;
        number += 1;
    }
    Ok(reader.steps)
}

/// What the lines so far say.
#[derive(Drop)]
struct Reader {
    steps: Steps,
    /// The newest version of each handler, 0 for none.
    newest: [u32; HANDLERS_MAX],
}

/// What one line says.
#[derive(Drop)]
struct Said<'a> {
    step: Step,
    file: Option<&'a str>,
}

impl Reader {
    // Reads a line.
    #[tactic(auto, unfolding(crate::specs::NodeScript::after_line))]
    fn line(&mut self, desc: &Description, number: u32, line: &[u8]) -> Result<(), ScriptFault>
        requires count { length self.old.steps.files < number }
        requires small { number < 2 ^ 32 }
        requires keeps { KeepsProgress desc.now (progress_of self.old) }
        ensures value { FollowsLine (after_line desc.now (progress_of self.old) (split_words line.now))
            number result (progress_of self.new) }
        ensures files { OnOk result (length self.new.steps.files ≤ number) }
        ensures keeps { OnOk result (KeepsProgress desc.now (progress_of self.new)) }
    {
        let mut words = Words::of(line);
        if words.is_skipped() {
            return Ok(());
        }
        let files = self.steps.files().len() as u32;
        let mut said = alone(Step::Run);
        match line_in(desc, &self.newest, files, &mut words, &mut said) {
            Ok(()) => self.add(said),
            Err(cause) => Err(ScriptFault::BadLine {
                line: number,
                cause,
            }),
        }
    }

    // Adds what a line says.
    fn add(&mut self, said: Said<'_>) -> Result<(), ScriptFault>
        ensures value { OnOk result (progress_of self.new ≡ with_said (progress_of self.old) (said_of said.entry)) }
        ensures refused { IfErr result (λ fault. fault ≡ ScriptFault.NoMemory) }
    {
        if let Some(file) = said.file {
            self.steps.name(file)?;
        }
        note_version(&mut self.newest, &said.step);
        self.steps.push(said.step)?;
        Ok(())
    }
}

// Records the version of an install.
fn note_version(newest: &mut [u32; HANDLERS_MAX], step: &Step)
    ensures { newest.new ≡ newest_after newest.old step.now }
{
    if let Step::Install {
        handler,
        version,
        ..
    } = step
    {
        note_newest(newest, *handler, *version);
    }
}

// What a whole line says, if `files` files were named before it.
#[tactic(auto, unfolding(crate::specs::NodeScript::a_line))]
fn line_in<'a>(
    desc: &Description,
    newest: &[u32; HANDLERS_MAX],
    files: u32,
    words: &mut Words<'a>,
    said: &mut Said<'a>,
) -> Result<(), Cause>
    ensures value { ReadsWords (λ _. said_of said.new) (a_line desc.now newest.now files) (split_words words.old) result (split_words words.new) }
    ensures right { IfOk result (λ _. IsRightSaid desc.now newest.now files (said_of said.new)) }
{
    // (a verb that isn't printable is none of those that begin a line)
    let Some(verb) = words.next() else {
        return Err(Cause::Word);
    };
    match behind(desc, newest, files, verb, words, said) {
        Ok(()) => words.finish(),
        Err(cause) => Err(cause),
    }
}

// What the words after a line's first word say.
#[tactic(auto, unfolding(crate::specs::NodeScript::behind))]
fn behind<'a>(
    desc: &Description,
    newest: &[u32; HANDLERS_MAX],
    files: u32,
    verb: &[u8],
    words: &mut Words<'a>,
    said: &mut Said<'a>,
) -> Result<(), Cause>
    ensures value { ReadsWords (λ _. said_of said.new) (behind desc.now newest.now files verb.now) (split_words words.old) result (split_words words.new) }
    ensures right { IfOk result (λ _. IsRightSaid desc.now newest.now files (said_of said.new)) }
{
    if spells(verb, "install") {
        install_in(desc, newest, files, words, said)
    } else if spells(verb, "load") {
        load_in(files, words, said)
    } else if spells(verb, "post") {
        post_in(desc, words, said)
    } else if spells(verb, "step") {
        step_in(desc, words, said)
    } else {
        behind_others(desc, verb, words, said)
    }
}

// The same for the lines that name no file, no handler and no number of instructions.
#[tactic(auto, unfolding(crate::specs::NodeScript::behind_others))]
fn behind_others<'a>(
    desc: &Description,
    verb: &[u8],
    words: &mut Words<'a>,
    said: &mut Said<'a>,
) -> Result<(), Cause>
    ensures value { ReadsWords (λ _. said_of said.new) (behind_others desc.now verb.now) (split_words words.old) result (split_words words.new) }
    ensures right { IfOk result (λ _. (newest : List ℕ) (files : ℕ) → IsRightSaid desc.now newest files (said_of said.new)) }
{
    if spells(verb, "run") {
        *said = alone(Step::Run);
        Ok(())
    } else if spells(verb, "answer") {
        answer_in(desc, words, said)
    } else if spells(verb, "show") {
        *said = alone(Step::Show);
        Ok(())
    } else if spells(verb, "reset") {
        *said = alone(Step::Reset);
        Ok(())
    } else {
        Err(Cause::Word)
    }
}

// A step that names no file.
fn alone<'a>(step: Step) -> Said<'a>
    ensures { said_of result ≡ record { step = step; file = None } }
{
    Said { step, file: None }
}

#[tactic(auto, unfolding(crate::specs::NodeScript::an_install))]
fn install_in<'a>(
    desc: &Description,
    newest: &[u32; HANDLERS_MAX],
    files: u32,
    words: &mut Words<'a>,
    said: &mut Said<'a>,
) -> Result<(), Cause>
    ensures value { ReadsWords (λ _. said_of said.new) (an_install desc.now newest.now files) (split_words words.old) result (split_words words.new) }
    ensures right { IfOk result (λ _. IsRightSaid desc.now newest.now files (said_of said.new)) }
{
    let handler = words.handler(desc)?;
    let version = words.version(newest_of(newest, handler))?;
    let file = words.word()?;
    *said = Said {
        step: Step::Install {
            handler,
            version,
            program: files,
        },
        file: Some(file),
    };
    Ok(())
}

#[tactic(auto, unfolding(crate::specs::NodeScript::a_load))]
fn load_in<'a>(files: u32, words: &mut Words<'a>, said: &mut Said<'a>) -> Result<(), Cause>
    ensures value { ReadsWords (λ _. said_of said.new) (a_load files) (split_words words.old) result (split_words words.new) }
    ensures right { IfOk result (λ _. (d : Description) (newest : List ℕ) → IsRightSaid d newest files (said_of said.new)) }
{
    let file = words.word()?;
    *said = Said {
        step: Step::Load { program: files },
        file: Some(file),
    };
    Ok(())
}

#[tactic(auto, unfolding(crate::specs::NodeScript::a_post))]
fn post_in<'a>(desc: &Description, words: &mut Words<'a>, said: &mut Said<'a>) -> Result<(), Cause>
    ensures value { ReadsWords (λ _. said_of said.new) (a_post desc.now) (split_words words.old) result (split_words words.new) }
    ensures right { IfOk result (λ _. (newest : List ℕ) (files : ℕ) → IsRightSaid desc.now newest files (said_of said.new)) }
{
    let handler = words.handler(desc)?;
    let payload = words.payload()?;
    *said = Said {
        step: Step::Post { handler, payload },
        file: None,
    };
    Ok(())
}

#[tactic(auto, unfolding(crate::specs::NodeScript::a_step))]
fn step_in<'a>(desc: &Description, words: &mut Words<'a>, said: &mut Said<'a>) -> Result<(), Cause>
    ensures value { ReadsWords (λ _. said_of said.new) (a_step desc.now) (split_words words.old) result (split_words words.new) }
    ensures right { IfOk result (λ _. (newest : List ℕ) (files : ℕ) → IsRightSaid desc.now newest files (said_of said.new)) }
{
    let ctx = words.context(desc)?;
    let n = words.number(1, 1_000_000, Cause::Range)?;
    *said = Said {
        step: Step::Step { ctx, n: n as u32 },
        file: None,
    };
    Ok(())
}

#[tactic(auto, unfolding(crate::specs::NodeScript::an_answer))]
fn answer_in<'a>(
    desc: &Description,
    words: &mut Words<'a>,
    said: &mut Said<'a>,
) -> Result<(), Cause>
    ensures value { ReadsWords (λ _. said_of said.new) (an_answer desc.now) (split_words words.old) result (split_words words.new) }
    ensures right { IfOk result (λ _. (newest : List ℕ) (files : ℕ) → IsRightSaid desc.now newest files (said_of said.new)) }
{
    let ctx = words.context(desc)?;
    let value = words.value()?;
    *said = Said {
        step: Step::Answer { ctx, value },
        file: None,
    };
    Ok(())
}
