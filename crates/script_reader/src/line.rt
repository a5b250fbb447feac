//! What a whole line says, by the world so far.

ghost use Rattle.std.specs.Prelude.{◌<◌, ◌≤◌, ◌^◌, length, IfOk};
ghost use Rattle.mate_num.specs.declared.bounds.TheConstants.{HOUR, NODES_MAX};
ghost use Rattle.script_steps.specs.Lines.{split_words};
ghost use Rattle.script_steps.specs.Words.{ReadsWords};
ghost use Rattle.script_reader.specs.WorldLines.{some_nodes, a_random, an_until, behind_verb, a_world_line};
ghost use Rattle.script_reader.specs.Draft.{ReadsWithMemory, world_progress_of, world_said_of, IsRightWorldSaid, KeepsWorld, AreTables};

use crate::command::Command;
use crate::draft::Draft;
use crate::refusal::Refusal;
use crate::stage::Stage;
use mate_num::{HOUR, NODES_MAX};
use script_steps::{Cause, Words, spells};
use vm_shape::Description;

impl Draft {
    /// What a whole line says. A line that says nothing right, or too little memory, is a refusal, with the first cause in the
    /// order of its words.
    #[tactic(auto, unfolding(crate::specs::WorldLines::a_world_line))]
    pub fn command<'a>(
        &self,
        desc: &Description,
        words: &mut Words<'a>,
        said: &mut Command<'a>,
    ) -> Result<(), Refusal>
        requires keeps { KeepsWorld desc.now (world_progress_of self.now) }
        requires tables { AreTables self.now.linked self.now.places self.now.world }
        requires files { length self.now.world.files < 2 ^ 32 }
        ensures value { ReadsWithMemory (λ _. world_said_of said.new) (a_world_line desc.now (world_progress_of self.now)) (split_words words.old) result
            (split_words words.new) }
        ensures right { IfOk result (λ _. IsRightWorldSaid desc.now (world_progress_of self.now) (world_said_of said.new)) }
    {
        let verb = words.plain()?;
        self.behind_verb(desc, verb, words, said)?;
        words.finish()?;
        Ok(())
    }

    // What the words behind a line's first word say.
    fn behind_verb<'a>(
        &self,
        desc: &Description,
        verb: &[u8],
        words: &mut Words<'a>,
        said: &mut Command<'a>,
    ) -> Result<(), Refusal>
        requires keeps { KeepsWorld desc.now (world_progress_of self.now) }
        requires tables { AreTables self.now.linked self.now.places self.now.world }
        requires files { length self.now.world.files < 2 ^ 32 }
        ensures value { ReadsWithMemory (λ _. world_said_of said.new) (behind_verb desc.now (world_progress_of self.now) self.now.stage verb.now)
            (split_words words.old) result (split_words words.new) }
        ensures right { IfOk result (λ _. IsRightWorldSaid desc.now (world_progress_of self.now) (world_said_of said.new)) }
    {
        match self.stage {
            Stage::Nodes => *said = Command::Nodes(nodes_in(verb, words)?),
            Stage::Random => *said = Command::Random(random_in(verb, words)?),
            Stage::Until => *said = Command::Until(until_in(verb, words)?),
            Stage::Settings => self.setting(desc, verb, words, said)?,
            Stage::Events => self.event(desc, verb, words, said)?,
        }
        Ok(())
    }
}

#[tactic(auto, unfolding(crate::specs::WorldLines::some_nodes))]
fn nodes_in(verb: &[u8], words: &mut Words<'_>) -> Result<u8, Cause>
    ensures value { ReadsWords (λ n. n) (some_nodes verb.now) (split_words words.old) result (split_words words.new) }
    ensures low { IfOk result (λ n. 1 ≤ n) }
    ensures high { IfOk result (λ n. n ≤ NODES_MAX) }
{
    if spells(verb, "nodes") {
        let nodes = words.number(1, NODES_MAX as u64, Cause::Range)?;
        Ok(nodes as u8)
    } else {
        Err(Cause::Word)
    }
}

#[tactic(auto, unfolding(crate::specs::WorldLines::a_random))]
fn random_in(verb: &[u8], words: &mut Words<'_>) -> Result<u64, Cause>
    ensures { ReadsWords (λ n. n) (a_random verb.now) (split_words words.old) result (split_words words.new) }
{
    if spells(verb, "random") {
        let random = words.number(0, u64::MAX, Cause::Range)?;
        Ok(random)
    } else {
        Err(Cause::Word)
    }
}

#[tactic(auto, unfolding(crate::specs::WorldLines::an_until))]
fn until_in(verb: &[u8], words: &mut Words<'_>) -> Result<u32, Cause>
    ensures value { ReadsWords (λ n. n) (an_until verb.now) (split_words words.old) result (split_words words.new) }
    ensures low { IfOk result (λ n. 1 ≤ n) }
    ensures high { IfOk result (λ n. n ≤ HOUR) }
{
    if spells(verb, "until") {
        let until = words.number(1, u64::from(HOUR), Cause::Range)?;
        Ok(until as u32)
    } else {
        Err(Cause::Word)
    }
}
