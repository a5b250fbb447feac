//! The exchange of one node, with its images on the heap.

ghost use Rattle.std.specs.Prelude.{◌≡◌, ◌<◌, ◌≤◌, [], ◌∷◌, length, false, IfOk, IfSome, is_some, All, Some, MatchResult, if◌then◌else◌};
ghost use Rattle.std.specs.List.{list_any};
ghost use Rattle.std.specs.Option.{option_map};
ghost use Rattle.mate_num.specs.declared.bounds.TheConstants.{HANDLERS_MAX};
ghost use Rattle.packet_codec.specs.declared.packet.Packet.TheVariants.{Vector};
ghost use Rattle.packet_codec.specs.Packet.{IsRightPacket};
ghost use Rattle.capsule_exchange.specs.Happenings.{Hears, Installs, Forgets, asks_after, completed_by, held_version, held_versions, collected_image, IsOpen, is_marked_slot, slots_from, next_slot, fragment_for};
ghost use Rattle.capsule_exchange.specs.Knowledge.{knowledge, held_of, Whatever, Learns, Judges, with_sent};

use crate::kept_image::KeptImage;
use crate::progress::{Outcome, Progress};
use arrayvec::ArrayVec;
use mate_num::{FRAGMENTS_MAX, HANDLERS_MAX, HandlerId, Image, NoMemory};
use packet_codec::Packet;
use std::alloc::Global;
use std::marker::Model;

/// An `Exchange` that is moved at once, for a simulator of many nodes: each image is in the memory of its own length, so
/// `installed` may be refused it. Large answers are written where they stay.
#[derive(Drop)]
pub struct StoredExchange {
    alloc: Global,
    progress: Box<Progress>,
    /// The images that are held, by handler.
    images: Vec<KeptImage>,
}

impl Model for StoredExchange {
    ghost use Rattle.capsule_exchange.specs.Knowledge.{Knowledge};
    ghost use Rattle.capsule_exchange.specs.Images.{AreImagesOf};

    ghost Value = { Knowledge };

    ghost view = { λ e. e.progress.value };

    ghost invariant = { λ e. AreImagesOf e.progress.value e.images.items };
}

impl StoredExchange {
    /// Nothing is held, collected or to be sent for any of the handlers. Of the other calls `installed` alone takes memory.
    pub fn new(alloc: Global, handlers: u8) -> Result<StoredExchange, NoMemory>
        requires low { 1 ≤ handlers }
        requires high { handlers ≤ HANDLERS_MAX }
        ensures { IfOk result (λ exchange. exchange ≡ knowledge handlers []) }
    {
        let mut images = Vec::with_capacity(alloc, usize::from(handlers))?;
        for _ in 0..handlers {
            images.push(KeptImage::none(alloc))?;
        }
        match Box::new(alloc, Progress::new(handlers)) {
            Ok(progress) => Ok(StoredExchange {
                alloc,
                progress,
                images,
            }),
            Err(_) => Err(NoMemory),
        }
    }

    /// The version that the node holds of the handler, 0 for none.
    pub fn held(&self, handler: HandlerId) -> u32
        requires { handler.0 < length self.now.handlers }
        ensures value { result ≡ held_of self.now handler }
        ensures version { Whatever self.now (λ n hs. result ≡ held_version handler.0 hs) }
    {
        self.progress.as_ref().held(handler)
    }

    /// A packet was received, as `Exchange::hear` says. What the node asks for is in `asks`.
    /// It is inlined, since each caller knows which packet it is.
    #[inline(always)]
    pub fn hear(&mut self, packet: &Packet, asks: &mut ArrayVec<Packet, HANDLERS_MAX>) -> Outcome
        requires right { IsRightPacket (length self.old.handlers) packet.now }
        requires empty { asks.old.items ≡ [] }
        ensures learned { Learns self.old (Hears packet.now) self.new }
        ensures handlers { length self.new.handlers ≡ length self.old.handlers }
        ensures consistent { Whatever self.old (λ n before. Judges n packet.now before result.consistent) }
        ensures asks { Whatever self.old (λ n before. asks.new.items ≡ asks_after n packet.now before) }
        ensures complete { Whatever self.old (λ n before. result.complete ≡ completed_by packet.now before) }
        ensures right { Whatever self.old (λ n before. IsOpen n before → All (IsRightPacket n) asks.new.items) }
    {
        self.progress.as_mut().hear(packet, asks)
    }

    /// Appends the versions that the node holds, where there is no packet yet. They are written where they stay.
    pub fn push_vector(&self, packets: &mut ArrayVec<Packet, HANDLERS_MAX>)
        requires { packets.old.items ≡ [] }
        ensures value { Whatever self.now (λ n hs. packets.new.items ≡ Vector (record { items = held_versions n hs }) ∷ []) }
        ensures right { All (IsRightPacket (length self.now.handlers)) packets.new.items }
    {
        self.progress.as_ref().push_vector(packets);
    }

    /// Whether a fragment is marked, that is, to be sent.
    pub fn marked(&self) -> bool
        ensures { Whatever self.now (λ n hs. result ≡ list_any (is_marked_slot hs) (slots_from n 0)) }
    {
        self.progress.as_ref().marked()
    }

    /// Sends the marked fragment that comes next, in the order of the slots: the first after the last one sent, and
    /// after the last slot the first of all. None comes exactly if nothing is marked.
    pub fn pump(&mut self) -> Option<Packet>
        ensures learned { Whatever self.old (λ n before. self.new ≡ knowledge n (with_sent (next_slot n before) before)) }
        ensures packet { Whatever self.old (λ n before. result ≡ option_map (fragment_for before) (next_slot n before)) }
        ensures handlers { length self.new.handlers ≡ length self.old.handlers }
        ensures none { Whatever self.old (λ n before. is_some result ≡ list_any (is_marked_slot before) (slots_from n 0)) }
        ensures right { IfSome result (IsRightPacket (length self.old.handlers)) }
    {
        let slot = self.progress.as_ref().next()?;
        let image = self.images.as_slice()[slot / FRAGMENTS_MAX].image();
        Some(self.progress.as_mut().send(slot, &image))
    }

    /// The image of the handler's target in the place of another: whether there is a target and no fragment of it is missing. Else that one
    /// stays.
    pub fn complete_into(&self, handler: HandlerId, image: &mut Image) -> bool
        requires { handler.0 < length self.now.handlers }
        ensures image { Whatever self.now (λ n hs. (if result then Some image.new else None) ≡ collected_image handler.0 hs) }
        ensures kept { result ≡ false → image.new ≡ image.old }
    {
        self.progress.as_ref().complete_into(handler, image)
    }

    /// The image was installed: what was collected and marked of the handler is dropped. `NoMemory` leaves the exchange as it was.
    pub fn installed(
        &mut self,
        handler: HandlerId,
        version: u32,
        image: &Image,
    ) -> Result<(), NoMemory>
        requires handler { handler.0 < length self.old.handlers }
        requires newer { held_of self.old handler < version }
        requires filled { 1 ≤ length image.now.items }
        ensures learned { MatchResult result (λ _. Learns self.old (Installs handler.0 version image.now.items) self.new)
            (λ _. self.new ≡ self.old) }
        ensures handlers { length self.new.handlers ≡ length self.old.handlers }
    {
        let kept = KeptImage::of(self.alloc, image)?;
        self.progress.as_mut().installed(handler, version, image);
        self.images.as_mut_slice()[usize::from(handler.0)] = kept;
        Ok(())
    }

    /// What is collected and marked is dropped.
    pub fn forget(&mut self)
        ensures learned { Learns self.old Forgets self.new }
        ensures handlers { length self.new.handlers ≡ length self.old.handlers }
    {
        self.progress.as_mut().forget();
    }
}
