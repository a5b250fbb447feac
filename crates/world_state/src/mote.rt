//! A node of a world with its timer, its exchange and its calls, and what events do to it.

ghost use Rattle.std.specs.Prelude.{◌≡◌, ◌+◌, ◌<◌, ◌≤◌, ℕ, true, List, length, All, OnOk, IfOk, ◌⊎◌};
ghost use Rattle.mate_num.specs.declared.bounds.TheConstants.{CONTEXTS_MAX, HOUR, NODES_MAX};
ghost use Rattle.mate_journal.specs.NodeScript.{Occasion, AnswersCall, ShowsOnce};
ghost use Rattle.node_state.specs.Meaning.{machine_in};
ghost use Rattle.node_calls.specs.Calls.{NobodyWaits};
ghost use Rattle.node_open.specs.View.{heard_of};
ghost use Rattle.node_open.specs.Calls.{Pacing};
ghost use Rattle.trickle_timer.specs.Intervals.{at_point, Expired};
ghost use Rattle.capsule_exchange.specs.Happenings.{held_versions, Happening, IsOpen};
ghost use Rattle.capsule_exchange.specs.Knowledge.{knowledge};
ghost use Rattle.arrayvec.specs.ArrayVec.{ArrayVec};
ghost use Rattle.packet_codec.specs.Packet.{IsRightPacket};
ghost use Rattle.packet_codec.specs.declared.packet.Packet.TheVariants.{Vector};
ghost use Rattle.world_state.specs.Motes.{BeginsMote, IsTellable, TellsAlone, ResetsMote, InstallsImage, LeavesImage, PumpsMote};
ghost use Rattle.world_state.specs.Motes.{HearsVector, plain_effect, at_fire, timed, counted_timer, begins_counted};

use crate::effect::Effect;
use capsule_exchange::StoredExchange;
use mate_num::{ContextId, HandlerId, Image, NoMemory, Payload, Stamp};
use node_open::{OpenNode, SharedMachine};
use packet_codec::Packet;
use std::alloc::Global;
use trickle_timer::{Fire, Trickle};
use world_air::Calls;

/// A node of a world.
#[derive(Drop)]
pub struct Mote {
    pub node: OpenNode,
    pub timer: Trickle,
    pub exchange: StoredExchange,
    /// Whether a pump is due.
    pub pumps: bool,
    pub calls: Calls,
}

impl Mote {
    /// A node at the start of a world whose random streams begin at `random`.
    pub fn new(
        alloc: Global,
        machine: &SharedMachine,
        random: u64,
        node: u8,
    ) -> Result<Mote, NoMemory>
        requires { node < NODES_MAX }
        ensures { IfOk result (BeginsMote machine.now random node) }
    {
        let desc = machine.description();
        Ok(Mote {
            node: OpenNode::on(alloc, machine.share()?)?,
            timer: Trickle::start(desc.trickle, random, node, 0),
            exchange: StoredExchange::new(alloc, desc.handlers.len() as u8)?,
            pumps: false,
            calls: Calls::new(alloc, desc, random, node)?,
        })
    }

    /// The handler is posted.
    pub fn post(&mut self, handler: HandlerId, payload: &Payload, at: Stamp) -> Result<(), NoMemory>
        requires handler { handler.0 < length self.old.node.description.handlers.items }
        requires tellable { IsTellable self.old.node at }
        ensures { OnOk result (TellsAlone at
            (Pacing (λ _. Occasion (machine_in self.old.node.description) (heard_of self.old.node) handler payload.now)) self.old
            self.new) }
    {
        self.node.reserve(2)?;
        let _ = self.node.post(handler, payload, at);
        Ok(())
    }

    /// The store is seen.
    pub fn show(&mut self, at: Stamp) -> Result<(), NoMemory>
        requires { IsTellable self.old.node at }
        ensures { OnOk result (TellsAlone at
            (Pacing (ShowsOnce (machine_in self.old.node.description) (heard_of self.old.node)))
            self.old self.new) }
    {
        self.node.reserve(1)?;
        self.node.seen(at);
        Ok(())
    }

    /// The call that the context waits with is answered. If none waits, nothing is done.
    pub fn answer(&mut self, ctx: ContextId, value: i16, at: Stamp) -> Result<(), NoMemory>
        requires context { ctx.0 < CONTEXTS_MAX }
        requires tellable { IsTellable self.old.node at }
        ensures { OnOk result (NobodyWaits (heard_of self.old.node) ctx
            ⊎ TellsAlone at (Pacing (λ _. AnswersCall (heard_of self.old.node) ctx value)) self.old self.new) }
    {
        self.node.reserve(1)?;
        match self.node.answer(ctx, value, at) {
            Ok(()) => Ok(()),
            Err(_) => Ok(()),
        }
    }

    /// The node is reset: its exchange forgets what it collected and owed, and its shortest interval begins.
    pub fn reset(&mut self, at: Stamp, effect: &mut Effect) -> Result<(), NoMemory>
        requires tellable { IsTellable self.old.node at }
        requires hour { at.time ≤ HOUR }
        requires within { self.old.timer.running.begin ≤ at.time }
        requires plain { effect.old ≡ plain_effect }
        ensures { OnOk result (ResetsMote at self.old self.new effect.new) }
    {
        self.node.reserve(2)?;
        self.node.reset(at);
        self.exchange.forget();
        self.timer.again(at.time);
        self.pumps = false;
        effect.begins = true;
        effect.cuts = true;
        effect.resets = true;
        Ok(())
    }

    /// The image is installed for the handler, as this version. One that isn't newer than what is held, or that the node
    /// refuses, does nothing.
    pub fn install(
        &mut self,
        handler: HandlerId,
        version: u32,
        image: &Image,
        at: Stamp,
        effect: &mut Effect,
    ) -> Result<(), NoMemory>
        requires handler { handler.0 < length self.old.exchange.handlers }
        requires tellable { IsTellable self.old.node at }
        requires hour { at.time ≤ HOUR }
        requires within { self.old.timer.running.begin ≤ at.time }
        requires plain { effect.old ≡ plain_effect }
        ensures { OnOk result (InstallsImage at handler version image.now.items self.old self.new effect.new
            ⊎ LeavesImage handler version image.now.items self.old self.new effect.new) }
    {
        self.node.reserve(4)?;
        if version <= self.exchange.held(handler) || image.is_empty() {
            return Ok(());
        }
        match self.node.install_anywhere(image.as_slice(), at)? {
            Ok(()) => {
                self.exchange.installed(handler, version, image)?;
                effect.cuts = true;
                effect.begins = self.timer.reset(at.time);
                Ok(())
            }
            Err(_) => Ok(()),
        }
    }

    /// The point of the node's interval: it sends its versions, or is silent.
    pub fn fire(&mut self, suppress: bool, effect: &mut Effect)
        requires { effect.old ≡ plain_effect }
        ensures same { self.new ≡ self.old }
        ensures effect { (n : ℕ) (hs : List Happening) → self.old.exchange ≡ knowledge n hs
            → effect.new ≡ at_fire (held_versions n hs) (at_point self.old.timer.set self.old.timer.running suppress) }
        ensures right { All (IsRightPacket (length self.old.exchange.handlers)) effect.new.sends.items }
    {
        match self.timer.fire(suppress) {
            Fire::Send => self.exchange.push_vector(&mut effect.sends),
            Fire::Keep => effect.first.keep(),
        }
    }

    /// The end of the node's interval: the next one begins.
    pub fn expire(&mut self, now: u32, effect: &mut Effect)
        requires hour { now ≤ HOUR }
        requires end { now ≡ self.old.timer.running.begin + self.old.timer.running.length }
        requires plain { effect.old ≡ plain_effect }
        ensures timer { self.new ≡ record self.old { timer = timed self.old.timer now Expired } }
        ensures effect { effect.new ≡ record plain_effect { begins = true } }
    {
        self.timer.expire(now);
        effect.begins = true;
    }

    /// The node sends the next fragment that it owes.
    pub fn pump(&mut self, effect: &mut Effect)
        requires { effect.old ≡ plain_effect }
        ensures pumps { (n : ℕ) (hs : List Happening) → self.old.exchange ≡ knowledge n hs → PumpsMote n hs self.old self.new effect.new }
        ensures right { All (IsRightPacket (length self.old.exchange.handlers)) effect.new.sends.items }
    {
        self.pumps = false;
        match self.exchange.pump() {
            Some(packet) => effect.sends.push(packet),
            None => {}
        }
    }

    /// The node hears a Vector: it counts for the timer, and is answered with requests.
    pub fn hear_vector(&mut self, packet: &Packet, at: Stamp, effect: &mut Effect)
        requires right { IsRightPacket (length self.old.exchange.handlers) packet.now }
        requires hour { at.time ≤ HOUR }
        requires within { self.old.timer.running.begin ≤ at.time }
        requires plain { effect.old ≡ plain_effect }
        ensures hears { (n : ℕ) (hs : List Happening) (versions : ArrayVec ℕ) → self.old.exchange ≡ knowledge n hs
            → packet.now ≡ Vector versions → HearsVector at versions.items n hs self.old self.new effect.new }

        // What is asked for is right, unless an image that is complete was not installed.
        ensures asks { (n : ℕ) (hs : List Happening) → self.old.exchange ≡ knowledge n hs → IsOpen n hs
            → All (IsRightPacket n) effect.new.sends.items }
    {
        let heard = self.exchange.hear(packet, &mut effect.sends);
        effect.begins = self.count(heard.consistent, at.time);
    }

    /// A Vector that is consistent or not counts for the timer. True exactly if an interval begins.
    fn count(&mut self, consistent: Option<bool>, now: u32) -> bool
        requires hour { now ≤ HOUR }
        requires within { self.old.timer.running.begin ≤ now }
        ensures timer { self.new ≡ record self.old { timer = counted_timer self.old.timer now consistent } }
        ensures begins { result ≡ begins_counted self.old.timer consistent }
    {
        match consistent {
            Some(consistent) => self.timer.hear(consistent, now),
            None => false,
        }
    }
}
