//! What the events of a world's script say.

ghost use Rattle.std.specs.Prelude.{◌≡◌, ◌<◌, ◌≤◌, ◌^◌, codes, length, None, IfOk, slice_index};
ghost use Rattle.script_steps.specs.Lines.{split_words};
ghost use Rattle.script_steps.specs.Words.{ReadsWords};
ghost use Rattle.script_steps.specs.World.{IsRightWhat, IfInjects};
ghost use Rattle.script_reader.specs.WorldLines.{SaysPlanned, an_injection, a_posting, a_noise, at_node, behind_time, an_event, by_its_verb};
ghost use Rattle.script_reader.specs.Draft.{world_progress_of, world_said_of, IsRightWorldSaid, KeepsWorld};

use crate::command::Command;
use crate::draft::Draft;
use crate::world_words::{node_in, noise_in, time_in};
use script_steps::{Cause, Planned, What, Words, newest_of, spells};
use vm_shape::Description;

impl Draft {
    // What an event's line says.
    pub(crate) fn event<'a>(
        &self,
        desc: &Description,
        verb: &[u8],
        words: &mut Words<'a>,
        said: &mut Command<'a>,
    ) -> Result<(), Cause>
        requires keeps { KeepsWorld desc.now (world_progress_of self.now) }
        requires files { length self.now.world.files < 2 ^ 32 }
        ensures value { ReadsWords (λ _. world_said_of said.new) (by_its_verb verb.now (codes "at") (an_event desc.now (world_progress_of self.now)))
            (split_words words.old) result (split_words words.new) }
        ensures right { IfOk result (λ _. IsRightWorldSaid desc.now (world_progress_of self.now) (world_said_of said.new)) }
    {
        if spells(verb, "at") {
            self.timed(desc, words, said)
        } else {
            Err(Cause::Word)
        }
    }

    #[tactic(auto, unfolding(crate::specs::WorldLines::an_event))]
    fn timed<'a>(
        &self,
        desc: &Description,
        words: &mut Words<'a>,
        said: &mut Command<'a>,
    ) -> Result<(), Cause>
        requires keeps { KeepsWorld desc.now (world_progress_of self.now) }
        requires files { length self.now.world.files < 2 ^ 32 }
        ensures value { ReadsWords (λ _. world_said_of said.new) (an_event desc.now (world_progress_of self.now)) (split_words words.old) result
            (split_words words.new) }
        ensures right { IfOk result (λ _. IsRightWorldSaid desc.now (world_progress_of self.now) (world_said_of said.new)) }
    {
        let time = time_in(self.world.until, self.time, words)?;
        let verb = words.plain()?;
        self.behind_time(desc, time, verb, words, said)
    }

    // What the words behind an event's time and verb say.
    #[tactic(auto, unfolding(crate::specs::WorldLines::behind_time))]
    fn behind_time<'a>(
        &self,
        desc: &Description,
        time: u32,
        verb: &[u8],
        words: &mut Words<'a>,
        said: &mut Command<'a>,
    ) -> Result<(), Cause>
        requires keeps { KeepsWorld desc.now (world_progress_of self.now) }
        requires files { length self.now.world.files < 2 ^ 32 }
        requires low { self.now.time ≤ time }
        requires high { time ≤ self.now.world.until }
        ensures value { ReadsWords (λ _. world_said_of said.new) (behind_time desc.now (world_progress_of self.now) time verb.now)
            (split_words words.old) result (split_words words.new) }
        ensures right { IfOk result (λ _. IsRightWorldSaid desc.now (world_progress_of self.now) (world_said_of said.new)) }
    {
        if spells(verb, "inject") {
            self.injection(desc, time, words, said)
        } else if spells(verb, "post") {
            self.posting(desc, time, words, said)
        } else if spells(verb, "show") {
            self.at_node(desc, time, What::Show, words, said)
        } else if spells(verb, "reset") {
            self.at_node(desc, time, What::Reset, words, said)
        } else if spells(verb, "noise") {
            self.noise(desc, time, words, said)
        } else {
            Err(Cause::Word)
        }
    }

    #[tactic(auto, unfolding(crate::specs::WorldLines::an_injection))]
    fn injection<'a>(
        &self,
        desc: &Description,
        time: u32,
        words: &mut Words<'a>,
        said: &mut Command<'a>,
    ) -> Result<(), Cause>
        requires keeps { KeepsWorld desc.now (world_progress_of self.now) }
        requires files { length self.now.world.files < 2 ^ 32 }
        requires low { self.now.time ≤ time }
        requires high { time ≤ self.now.world.until }
        ensures value { ReadsWords (λ _. world_said_of said.new) (an_injection desc.now (world_progress_of self.now) time) (split_words words.old) result
            (split_words words.new) }
        ensures right { IfOk result (λ _. IsRightWorldSaid desc.now (world_progress_of self.now) (world_said_of said.new)) }
    {
        let node = node_in(self.world.nodes, words)?;
        let handler = words.handler(desc)?;
        let version = words.version(newest_of(&self.newest, handler))?;
        let file = words.word()?;
        let what = What::Inject {
            program: self.world.files.len() as u32,
            handler,
            version,
        };
        *said = Command::Plan {
            planned: Planned { time, node, what },
            file: Some(file),
        };
        Ok(())
    }

    #[tactic(auto, unfolding(crate::specs::WorldLines::a_posting))]
    fn posting<'a>(
        &self,
        desc: &Description,
        time: u32,
        words: &mut Words<'a>,
        said: &mut Command<'a>,
    ) -> Result<(), Cause>
        requires keeps { KeepsWorld desc.now (world_progress_of self.now) }
        requires low { self.now.time ≤ time }
        requires high { time ≤ self.now.world.until }
        ensures value { ReadsWords (λ _. world_said_of said.new) (a_posting desc.now self.now.world time)
            (split_words words.old) result (split_words words.new) }
        ensures right { IfOk result (λ _. IsRightWorldSaid desc.now (world_progress_of self.now) (world_said_of said.new)) }
    {
        let node = node_in(self.world.nodes, words)?;
        let handler = words.handler(desc)?;
        let payload = words.payload()?;
        *said = planned(time, node, What::Post { handler, payload });
        Ok(())
    }

    #[tactic(auto, unfolding(crate::specs::WorldLines::a_noise))]
    fn noise<'a>(
        &self,
        desc: &Description,
        time: u32,
        words: &mut Words<'a>,
        said: &mut Command<'a>,
    ) -> Result<(), Cause>
        requires keeps { KeepsWorld desc.now (world_progress_of self.now) }
        requires low { self.now.time ≤ time }
        requires high { time ≤ self.now.world.until }
        ensures value { ReadsWords (λ _. world_said_of said.new) (a_noise desc.now self.now.world time)
            (split_words words.old) result (split_words words.new) }
        ensures right { IfOk result (λ _. IsRightWorldSaid desc.now (world_progress_of self.now) (world_said_of said.new)) }
    {
        let node = node_in(self.world.nodes, words)?;
        let bytes = noise_in(desc, words)?;
        *said = planned(time, node, What::Noise { bytes });
        Ok(())
    }

    // What a node is to do that needs no further word.
    #[tactic(auto, unfolding(crate::specs::WorldLines::at_node))]
    fn at_node<'a>(
        &self,
        desc: &Description,
        time: u32,
        what: What,
        words: &mut Words<'a>,
        said: &mut Command<'a>,
    ) -> Result<(), Cause>
        requires keeps { KeepsWorld desc.now (world_progress_of self.now) }
        requires low { self.now.time ≤ time }
        requires high { time ≤ self.now.world.until }
        requires right { IsRightWhat desc.now (length self.now.world.files) what }
        requires newer { IfInjects what (λ handler version. slice_index (world_progress_of self.now).newest handler.0 < version) }
        ensures value { ReadsWords (λ _. world_said_of said.new) (at_node self.now.world time what) (split_words words.old) result (split_words words.new) }
        ensures right { IfOk result (λ _. IsRightWorldSaid desc.now (world_progress_of self.now) (world_said_of said.new)) }
    {
        let node = node_in(self.world.nodes, words)?;
        *said = planned(time, node, what);
        Ok(())
    }
}

// What is planned for a node and names no file.
fn planned<'a>(time: u32, node: u8, what: What) -> Command<'a>
    ensures { world_said_of result ≡ SaysPlanned (record { time = time; node = node; what = what }) None }
{
    Command::Plan {
        planned: Planned { time, node, what },
        file: None,
    }
}
