//! The exchange of one node.

ghost use Rattle.std.specs.Prelude.{◌≡◌, ◌<◌, ◌≤◌, [], length, IfSome, is_some, All};
ghost use Rattle.std.specs.List.{list_any};
ghost use Rattle.std.specs.Option.{option_map};
ghost use Rattle.mate_num.specs.declared.bounds.TheConstants.{HANDLERS_MAX};
ghost use Rattle.packet_codec.specs.declared.packet.Packet.TheVariants.{Vector};
ghost use Rattle.packet_codec.specs.Packet.{IsRightPacket};
ghost use Rattle.capsule_exchange.specs.Happenings.{Hears, Installs, Forgets, asks_after, completed_by, held_version, held_versions, collected_image, IsOpen, is_marked_slot, slots_from, next_slot, fragment_for};
ghost use Rattle.capsule_exchange.specs.Knowledge.{knowledge, held_of, Whatever, Learns, Judges, with_sent};

use crate::progress::{Outcome, Progress};
use arrayvec::ArrayVec;
use mate_num::{FRAGMENTS_MAX, HANDLERS_MAX, HandlerId, Image};
use packet_codec::Packet;
use std::marker::Model;

/// What a packet that a node received calls for.
#[derive(Drop)]
pub struct Heard {
    /// Whether a Vector has exactly the versions that the node holds; None for other packets.
    pub consistent: Option<bool>,
    /// What the node sends at once: one Status for each handler of which a Vector has a greater version than the held one.
    pub asks: ArrayVec<Packet, HANDLERS_MAX>,
    /// The handler of a fragment that completed the fragments of its target.
    pub complete: Option<HandlerId>,
}

/// The capsules that a node holds, what it collects of newer ones, and the fragments that it has yet to send. All is in its
/// place, 18 KB: no call takes memory.
///
/// Contracts speak of all that happened so far: they see what the node knows after it.
#[derive(Drop)]
pub struct Exchange {
    progress: Progress,
    /// The images that are held, by handler.
    images: ArrayVec<Image, HANDLERS_MAX>,
}

impl Model for Exchange {
    ghost use Rattle.capsule_exchange.specs.Knowledge.{Knowledge};
    ghost use Rattle.capsule_exchange.specs.Images.{AreImagesOf};

    ghost Value = { Knowledge };

    ghost view = { λ e. e.progress };

    ghost invariant = { λ e. AreImagesOf e.progress e.images.items };
}

impl Exchange {
    /// Nothing is held, collected or to be sent for any of the handlers.
    pub fn new(handlers: u8) -> Exchange
        requires low { 1 ≤ handlers }
        requires high { handlers ≤ HANDLERS_MAX }
        ensures { result ≡ knowledge handlers [] }
    {
        let mut images: ArrayVec<Image, HANDLERS_MAX> = ArrayVec::new();
        for _ in 0..handlers {
            images.push(Image::new());
        }
        Exchange {
            progress: Progress::new(handlers),
            images,
        }
    }

    /// How many handlers there are.
    pub fn handlers(&self) -> usize
        ensures { result ≡ length self.now.handlers }
    {
        self.progress.handlers()
    }

    /// The version that the node holds of the handler, 0 for none.
    pub fn held(&self, handler: HandlerId) -> u32
        requires { handler.0 < length self.now.handlers }
        ensures value { result ≡ held_of self.now handler }
        ensures version { Whatever self.now (λ n hs. result ≡ held_version handler.0 hs) }
    {
        self.progress.held(handler)
    }

    /// A packet was received. A Vector or a fragment names a version, which becomes the target if it is over the held
    /// one and the target; a fragment of the target is collected; a Status marks the fragments that it asks for of
    /// the held version.
    pub fn hear(&mut self, packet: &Packet) -> Heard
        requires { IsRightPacket (length self.old.handlers) packet.now }
        ensures learned { Learns self.old (Hears packet.now) self.new }
        ensures handlers { length self.new.handlers ≡ length self.old.handlers }
        ensures consistent { Whatever self.old (λ n before. Judges n packet.now before result.consistent) }
        ensures asks { Whatever self.old (λ n before. result.asks.items ≡ asks_after n packet.now before) }
        ensures complete { Whatever self.old (λ n before. result.complete ≡ completed_by packet.now before) }

        // What is asked for is right, unless a complete image was not installed.
        ensures right { Whatever self.old (λ n before. IsOpen n before → All (IsRightPacket n) result.asks.items) }
    {
        let mut asks = ArrayVec::new();
        let Outcome {
            consistent,
            complete,
        } = self.progress.hear(packet, &mut asks);
        Heard {
            consistent,
            asks,
            complete,
        }
    }

    /// The versions that the node holds.
    pub fn vector(&self) -> Packet
        ensures value { Whatever self.now (λ n hs. result ≡ Vector (record { items = held_versions n hs })) }
        ensures right { IsRightPacket (length self.now.handlers) result }
    {
        self.progress.vector()
    }

    /// Whether a fragment is marked, that is, to be sent.
    pub fn marked(&self) -> bool
        ensures { Whatever self.now (λ n hs. result ≡ list_any (is_marked_slot hs) (slots_from n 0)) }
    {
        self.progress.marked()
    }

    /// Sends the marked fragment that comes next, in the order of the slots: the first after the last one sent, and
    /// after the last slot the first of all. None comes exactly if nothing is marked.
    pub fn pump(&mut self) -> Option<Packet>
        ensures learned { Whatever self.old (λ n before. self.new ≡ knowledge n (with_sent (next_slot n before) before)) }
        ensures packet { Whatever self.old (λ n before. result ≡ option_map (fragment_for before) (next_slot n before)) }
        ensures handlers { length self.new.handlers ≡ length self.old.handlers }
        ensures none { Whatever self.old (λ n before. is_some result ≡ list_any (is_marked_slot before) (slots_from n 0)) }
        ensures right { IfSome result (IsRightPacket (length self.old.handlers)) }
    {
        let slot = self.progress.next()?;
        let image = &self.images.as_slice()[slot / FRAGMENTS_MAX];
        Some(self.progress.send(slot, image))
    }

    /// The image of the handler's target; None exactly if there is no target, or a fragment of it is missing.
    pub fn complete(&self, handler: HandlerId) -> Option<Image>
        requires { handler.0 < length self.now.handlers }
        ensures { Whatever self.now (λ n hs. result ≡ collected_image handler.0 hs) }
    {
        let mut image = Image::new();
        if self.progress.complete_into(handler, &mut image) {
            Some(image)
        } else {
            None
        }
    }

    /// The image was installed: what was collected and marked of the handler is dropped.
    pub fn installed(&mut self, handler: HandlerId, version: u32, image: &Image)
        requires handler { handler.0 < length self.old.handlers }
        requires newer { held_of self.old handler < version }
        requires filled { 1 ≤ length image.now.items }
        ensures learned { Learns self.old (Installs handler.0 version image.now.items) self.new }
        ensures handlers { length self.new.handlers ≡ length self.old.handlers }
    {
        self.progress.installed(handler, version, image);
        self.images.as_mut_slice()[usize::from(handler.0)] = copy_of(image);
    }

    /// What is collected and marked is dropped.
    pub fn forget(&mut self)
        ensures learned { Learns self.old Forgets self.new }
        ensures handlers { length self.new.handlers ≡ length self.old.handlers }
    {
        self.progress.forget();
    }
}

fn copy_of(image: &Image) -> Image
    ensures { result ≡ image.now }
{
    let mut copy = Image::new();
    let Ok(()) = copy.try_extend_from_slice(image.as_slice()) else {
        unreachable!()
    };
    copy
}
