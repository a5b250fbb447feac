//! What the settings of a world's script say.

ghost use Rattle.std.specs.Prelude.{◌≡◌, ◌<◌, ◌≤◌, ◌^◌, length, true, IfOk};
ghost use Rattle.mate_num.specs.declared.bounds.TheConstants.{NODES_MAX};
ghost use Rattle.script_steps.specs.Lines.{split_words};
ghost use Rattle.script_steps.specs.Words.{ReadsWords};
ghost use Rattle.script_reader.specs.declared.stage.Stage.TheVariants as stages;
ghost use Rattle.script_reader.specs.WorldLines.{a_switch, is_free, is_linked, a_far_end, a_link, a_series, a_setting};
ghost use Rattle.script_reader.specs.Draft.{ReadsWithMemory, world_progress_of, world_said_of, IsRightWorldSaid, KeepsWorld, AreTables};

use crate::command::Command;
use crate::draft::Draft;
use crate::refusal::Refusal;
use crate::world_words::{node_in, sensor_in, values_in};
use mate_num::NODES_MAX;
use script_steps::{Cause, Link, Series, Words, spells};
use vm_shape::Description;

impl Draft {
    // What a setting or the first event says.
    #[tactic(auto, unfolding(crate::specs::WorldLines::a_setting))]
    pub(crate) fn setting<'a>(
        &self,
        desc: &Description,
        verb: &[u8],
        words: &mut Words<'a>,
        said: &mut Command<'a>,
    ) -> Result<(), Refusal>
        requires keeps { KeepsWorld desc.now (world_progress_of self.now) }
        requires tables { AreTables self.now.linked self.now.places self.now.world }
        requires files { length self.now.world.files < 2 ^ 32 }
        requires stage { self.now.stage ≡ stages.Settings }
        ensures value { ReadsWithMemory (λ _. world_said_of said.new) (a_setting desc.now (world_progress_of self.now) verb.now) (split_words words.old)
            result (split_words words.new) }
        ensures right { IfOk result (λ _. IsRightWorldSaid desc.now (world_progress_of self.now) (world_said_of said.new)) }
    {
        if spells(verb, "suppress") {
            *said = Command::Suppress(switch_in(words)?);
        } else if spells(verb, "link") {
            self.link(desc, false, words, said)?;
        } else if spells(verb, "both") {
            self.link(desc, true, words, said)?;
        } else if spells(verb, "series") {
            self.series(desc, words, said)?;
        } else {
            self.event(desc, verb, words, said)?;
        }
        Ok(())
    }

    #[tactic(auto, unfolding(crate::specs::WorldLines::a_link))]
    fn link<'a>(
        &self,
        desc: &Description,
        both: bool,
        words: &mut Words<'a>,
        said: &mut Command<'a>,
    ) -> Result<(), Cause>
        requires keeps { KeepsWorld desc.now (world_progress_of self.now) }
        requires tables { AreTables self.now.linked self.now.places self.now.world }
        requires stage { self.now.stage ≡ stages.Settings }
        ensures value { ReadsWords (λ _. world_said_of said.new) (a_link self.now.world both) (split_words words.old) result (split_words words.new) }
        ensures right { IfOk result (λ _. IsRightWorldSaid desc.now (world_progress_of self.now) (world_said_of said.new)) }
    {
        let from = node_in(self.world.nodes, words)?;
        let to = self.far_end(both, from, words)?;
        let loss = words.number(0, 1000, Cause::Range)?;
        let link = Link {
            from,
            to,
            loss: loss as u16,
        };
        *said = Command::Link { link, both };
        Ok(())
    }

    // The node at a link's other end.
    #[tactic(auto, unfolding(crate::specs::WorldLines::a_far_end))]
    fn far_end(&self, both: bool, from: u8, words: &mut Words<'_>) -> Result<u8, Cause>
        requires from { from < NODES_MAX }
        requires low { 1 ≤ self.now.world.nodes }
        requires high { self.now.world.nodes ≤ NODES_MAX }
        requires tables { AreTables self.now.linked self.now.places self.now.world }
        ensures value { ReadsWords (λ n. n) (a_far_end self.now.world both from) (split_words words.old) result (split_words words.new) }
        ensures below { IfOk result (λ to. to < self.now.world.nodes) }
        ensures free { IfOk result (λ to. is_free self.now.world.links both from to ≡ true) }
    {
        let to = node_in(self.world.nodes, words)?;
        if self.is_free(both, from, to) {
            Ok(to)
        } else {
            Err(Cause::Range)
        }
    }

    // Whether a link may join the nodes, and if `both` is true the one back as well.
    fn is_free(&self, both: bool, from: u8, to: u8) -> bool
        requires from { from < NODES_MAX }
        requires to { to < NODES_MAX }
        requires tables { AreTables self.now.linked self.now.places self.now.world }
        ensures { result ≡ is_free self.now.world.links both from to }
    {
        from != to && !self.is_linked(from, to) && !(both && self.is_linked(to, from))
    }

    fn is_linked(&self, from: u8, to: u8) -> bool
        requires from { from < NODES_MAX }
        requires to { to < NODES_MAX }
        requires tables { AreTables self.now.linked self.now.places self.now.world }
        ensures { result ≡ is_linked from to self.now.world.links }
    {
        self.linked[from as usize * NODES_MAX + to as usize]
    }

    #[tactic(auto, unfolding(crate::specs::WorldLines::a_series))]
    fn series<'a>(
        &self,
        desc: &Description,
        words: &mut Words<'a>,
        said: &mut Command<'a>,
    ) -> Result<(), Refusal>
        requires keeps { KeepsWorld desc.now (world_progress_of self.now) }
        requires stage { self.now.stage ≡ stages.Settings }
        ensures value { ReadsWithMemory (λ _. world_said_of said.new) (a_series desc.now self.now.world)
            (split_words words.old) result (split_words words.new) }
        ensures right { IfOk result (λ _. IsRightWorldSaid desc.now (world_progress_of self.now) (world_said_of said.new)) }
    {
        let node = node_in(self.world.nodes, words)?;
        let fun = sensor_in(desc, words)?;
        let values = values_in(self.alloc, words)?;
        *said = Command::Series(Series { node, fun, values });
        Ok(())
    }
}

#[tactic(auto, unfolding(crate::specs::WorldLines::a_switch))]
fn switch_in(words: &mut Words<'_>) -> Result<bool, Cause>
    ensures { ReadsWords (λ on. on) a_switch (split_words words.old) result (split_words words.new) }
{
    let word = words.plain()?;
    if spells(word, "on") {
        Ok(true)
    } else if spells(word, "off") {
        Ok(false)
    } else {
        Err(Cause::Word)
    }
}
