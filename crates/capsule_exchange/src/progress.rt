//! What a node knows of its capsules, beside the images that it holds.

ghost use Rattle.std.specs.Prelude.{◌≡◌, ◌*◌, ◌/◌, ◌%◌, ◌<◌, ◌≤◌, ◌↔◌, [], ◌∷◌, length, map, false, IsTrue, IfSome, is_some, All, Some, if◌then◌else◌};
ghost use Rattle.std.specs.List.{list_any};
ghost use Rattle.mate_num.specs.declared.bounds.TheConstants.{FRAGMENTS_MAX, HANDLERS_MAX};
ghost use Rattle.packet_codec.specs.declared.packet.Packet.TheVariants.{Vector};
ghost use Rattle.packet_codec.specs.Packet.{IsRightPacket};
ghost use Rattle.capsule_exchange.specs.Happenings.{Hears, Installs, Forgets, asks_after, completed_by, held_version, held_versions, collected_image, IsOpen, is_marked_slot, slots_from, next_slot, Sends};
ghost use Rattle.capsule_exchange.specs.Knowledge.{knowledge, held_of, with_state, Whatever, Learns, Judges};
ghost use Rattle.capsule_exchange.specs.Images.{HoldSame};
ghost use Rattle.capsule_exchange.specs.Sound.{AreSound};
ghost use Rattle.capsule_exchange.specs.Steps.{state_at, aimed_each, asks_upto, hears_status, hears_fragment, completes_in, installs, is_marked_in, fragment_in};

use crate::handler_state::{Form, HandlerState};
use crate::handlers::{
    aim_each, any_marked, ask_each, forget_each, held_versions, next_slot, write_held,
};
use crate::noted_image::NotedImage;
use crate::summary::Summary;
use arrayvec::ArrayVec;
use capsule_codec::Piece;
use mate_num::{FRAGMENTS_MAX, HANDLERS_MAX, HandlerId, Image};
use packet_codec::Packet;
use std::marker::Model;

/// What came of a packet that a node received, beside what the node asks for.
#[derive(Drop)]
pub struct Outcome {
    /// Whether a Vector has exactly the versions that the node holds; None for other packets.
    pub consistent: Option<bool>,
    /// The handler of a fragment that completed the fragments of its target.
    pub complete: Option<HandlerId>,
}

impl Outcome {
    // What came of a packet that is no Vector.
    fn completing(complete: Option<HandlerId>) -> Outcome
        ensures consistent { result.consistent ≡ None }
        ensures complete { result.complete ≡ complete }
    {
        Outcome {
            consistent: None,
            complete,
        }
    }
}

/// The versions that a node holds, what it collects of newer ones, and the fragments that it has yet to send. The images
/// that it holds are kept elsewhere.
///
/// Contracts speak of all that happened so far: they see what the node knows after it, with the images.
#[derive(Drop)]
pub struct Progress {
    handlers: ArrayVec<HandlerState, HANDLERS_MAX>,
    last: Option<u8>,
    summary: Summary,
}

impl Model for Progress {
    ghost use Rattle.capsule_exchange.specs.Knowledge.{Knowledge};
    ghost use Rattle.capsule_exchange.specs.Summary.{AreKept};

    ghost Value = { Knowledge };

    ghost view = { λ e. record { handlers = e.handlers.items; last = e.last } };

    ghost invariant = { λ e. AreKept e.handlers.items e.summary };
}

impl Progress {
    /// Nothing is held, collected or to be sent for any of the handlers.
    pub(crate) fn new(handlers: u8) -> Progress
        requires low { 1 ≤ handlers }
        requires high { handlers ≤ HANDLERS_MAX }
        ensures { result ≡ knowledge handlers [] }
    {
        let mut states: ArrayVec<HandlerState, HANDLERS_MAX> = ArrayVec::new();
        for _ in 0..handlers {
            states.push(HandlerState::default());
        }
        let summary = Summary::of(states.as_slice());
        Progress {
            handlers: states,
            last: None,
            summary,
        }
    }

    /// How many handlers there are.
    pub(crate) fn handlers(&self) -> usize
        ensures { result ≡ length self.now.handlers }
    {
        self.handlers.len()
    }

    /// The version that the node holds of the handler, 0 for none.
    pub(crate) fn held(&self, handler: HandlerId) -> u32
        requires { handler.0 < length self.now.handlers }
        ensures value { result ≡ held_of self.now handler }
        ensures version { Whatever self.now (λ n hs. result ≡ held_version handler.0 hs) }
    {
        self.handlers.as_slice()[usize::from(handler.0)].held
    }

    /// A packet was received. A Vector or a fragment names a version, which becomes the target if it is over the held
    /// one and the target; a fragment of the target is collected; a Status marks the fragments that it asks for of
    /// the held version. `asks` gets the packets that the node sends at once: one Status for each handler of which a
    /// Vector has a greater version than the held one.
    /// It is inlined, since each caller knows which packet it is.
    #[inline(always)]
    pub(crate) fn hear(
        &mut self,
        packet: &Packet,
        asks: &mut ArrayVec<Packet, HANDLERS_MAX>,
    ) -> Outcome
        requires right { IsRightPacket (length self.old.handlers) packet.now }
        requires empty { asks.old.items ≡ [] }
        ensures learned { Learns self.old (Hears packet.now) self.new }
        ensures handlers { length self.new.handlers ≡ length self.old.handlers }
        ensures images { HoldSame self.old self.new }
        ensures consistent { Whatever self.old (λ n before. Judges n packet.now before result.consistent) }
        ensures asks { Whatever self.old (λ n before. asks.new.items ≡ asks_after n packet.now before) }
        ensures complete { Whatever self.old (λ n before. result.complete ≡ completed_by packet.now before) }

        // What is asked for is right, unless a complete image was not installed.
        ensures right { Whatever self.old (λ n before. IsOpen n before → All (IsRightPacket n) asks.new.items) }
    {
        match packet {
            Packet::Vector { versions } => Outcome {
                consistent: Some(self.hear_vector(versions, asks)),
                complete: None,
            },
            Packet::Status {
                handler,
                version,
                missing,
            } => {
                self.hear_status(*handler, *version, *missing);
                Outcome::completing(None)
            }
            Packet::Fragment {
                handler,
                version,
                index,
                count,
                large,
                bytes,
            } => {
                let form = Form {
                    count: *count,
                    large: *large,
                };
                Outcome::completing(self.hear_fragment(*handler, *version, *index, form, bytes))
            }
            Packet::App { .. } => Outcome::completing(None),
        }
    }

    // A Vector was received: whether its versions are those that are held, and what is asked for.
    fn hear_vector(
        &mut self,
        versions: &ArrayVec<u32, HANDLERS_MAX>,
        asks: &mut ArrayVec<Packet, HANDLERS_MAX>,
    ) -> bool
        requires same_len { length versions.now.items ≡ length self.old.handlers }
        requires empty { asks.old.items ≡ [] }
        ensures consistent { IsTrue result ↔ (versions.now.items ≡ map (λ s. s.held) self.old.handlers) }
        ensures aimed { self.new ≡ record self.old { handlers = aimed_each versions.now.items self.old.handlers } }
        ensures asks { asks.new.items ≡ asks_upto versions.now.items self.new.handlers (length self.new.handlers) }
        ensures sound { AreSound self.new.handlers }
    {
        // If the versions are those that are held, nothing is new.
        if versions.as_slice() == self.summary.held.as_slice() {
            return true;
        }
        // (what is held and marked stays, and so does the summary)
        aim_each(self.handlers.as_mut_slice(), versions.as_slice());
        ask_each(self.handlers.as_slice(), versions.as_slice(), asks);
        false
    }

    // A Status of the handler was received.
    #[inline(never)]
    fn hear_status(&mut self, handler: HandlerId, version: u32, missing: u32)
        requires { handler.0 < length self.old.handlers }
        ensures { self.new ≡ with_state self.old handler.0 (hears_status version missing (state_at self.old.handlers handler.0)) }
    {
        let state = &mut self.handlers.as_mut_slice()[usize::from(handler.0)];
        // (what is held stays)
        state.hear_status(version, missing);
        self.summary.owes = any_marked(self.handlers.as_slice());
    }

    // A fragment of the handler was received: the handler, if its fragments became complete.
    #[inline(never)]
    fn hear_fragment(
        &mut self,
        handler: HandlerId,
        version: u32,
        index: u8,
        form: Form,
        bytes: &Piece,
    ) -> Option<HandlerId>
        requires handler { handler.0 < length self.old.handlers }
        requires index { index < FRAGMENTS_MAX }
        requires count { form.count ≤ FRAGMENTS_MAX }
        ensures state { self.new ≡ with_state self.old handler.0
            (hears_fragment version index form bytes.now (state_at self.old.handlers handler.0)) }
        ensures complete { result ≡ completes_in handler (state_at self.old.handlers handler.0) (state_at self.new.handlers handler.0) }
        ensures sound_before { AreSound self.old.handlers }
        ensures sound { AreSound self.new.handlers }
    {
        let state = &mut self.handlers.as_mut_slice()[usize::from(handler.0)];
        let before = state.complete_version();
        // (what is held and marked stays, and so does the summary)
        state.hear_fragment(version, index, form, bytes);
        let after = state.complete_version();
        if before < after { Some(handler) } else { None }
    }

    /// The versions that the node holds.
    pub(crate) fn vector(&self) -> Packet
        ensures value { Whatever self.now (λ n hs. result ≡ Vector (record { items = held_versions n hs })) }
        ensures right { IsRightPacket (length self.now.handlers) result }
    {
        Packet::Vector {
            versions: held_versions(self.handlers.as_slice()),
        }
    }

    /// Appends the versions that the node holds, where there is no packet yet. They are written where they stay.
    pub(crate) fn push_vector(&self, packets: &mut ArrayVec<Packet, HANDLERS_MAX>)
        requires { packets.old.items ≡ [] }
        ensures value { Whatever self.now (λ n hs. packets.new.items ≡ Vector (record { items = held_versions n hs }) ∷ []) }
        ensures right { All (IsRightPacket (length self.now.handlers)) packets.new.items }
    {
        packets.push(Packet::Vector {
            versions: ArrayVec::new(),
        });
        match &mut packets.as_mut_slice()[0] {
            Packet::Vector { versions } => write_held(versions, self.handlers.as_slice()),
            _ => unreachable!(),
        }
    }

    /// Whether a fragment is marked, that is, to be sent.
    pub(crate) fn marked(&self) -> bool
        ensures { Whatever self.now (λ n hs. result ≡ list_any (is_marked_slot hs) (slots_from n 0)) }
    {
        self.summary.owes
    }

    /// The slot that is sent next, in the order of the slots: the first marked one after the last one sent, and after the last slot the first
    /// of all. None comes exactly if nothing is marked.
    pub(crate) fn next(&self) -> Option<usize>
        ensures next { Whatever self.now (λ n hs. result ≡ next_slot n hs) }
        ensures none { Whatever self.now (λ n hs. is_some result ≡ list_any (is_marked_slot hs) (slots_from n 0)) }
        ensures marked { IfSome result (λ slot. (slot < FRAGMENTS_MAX * length self.now.handlers) × IsTrue (is_marked_in self.now.handlers slot)) }
    {
        next_slot(self.handlers.as_slice(), self.last)
    }

    /// Sends the fragment of a marked slot, of the image that is held of its handler.
    pub(crate) fn send(&mut self, slot: usize, image: &Image) -> Packet
        requires within { slot < FRAGMENTS_MAX * length self.old.handlers }
        requires marked { IsTrue (is_marked_in self.old.handlers slot) }
        requires held { image.now ≡ (state_at self.old.handlers (slot / FRAGMENTS_MAX)).image }
        ensures learned { Learns self.old (Sends slot) self.new }
        ensures handlers { length self.new.handlers ≡ length self.old.handlers }
        ensures images { HoldSame self.old self.new }
        ensures packet { result ≡ fragment_in self.old.handlers slot }
        ensures right { IsRightPacket (length self.old.handlers) result }
    {
        let handler = slot / FRAGMENTS_MAX;
        let index = slot % FRAGMENTS_MAX;
        let state = &mut self.handlers.as_mut_slice()[handler];
        let packet = state.fragment(HandlerId(handler as u8), index as u8, image);
        // (what is held stays)
        state.unmark(index);
        self.summary.owes = any_marked(self.handlers.as_slice());
        self.last = Some(slot as u8);
        packet
    }

    /// The image of the handler's target in the place of another: whether there is a target and no fragment of it is missing. Else that one
    /// stays.
    pub(crate) fn complete_into(&self, handler: HandlerId, image: &mut Image) -> bool
        requires { handler.0 < length self.now.handlers }
        ensures image { Whatever self.now (λ n hs. (if result then Some image.new else None) ≡ collected_image handler.0 hs) }
        ensures kept { result ≡ false → image.new ≡ image.old }
    {
        self.handlers.as_slice()[usize::from(handler.0)].collect_into(image)
    }

    /// The image was installed: what was collected and marked of the handler is dropped.
    pub(crate) fn installed(&mut self, handler: HandlerId, version: u32, image: &Image)
        requires handler { handler.0 < length self.old.handlers }
        requires newer { held_of self.old handler < version }
        requires filled { 1 ≤ length image.now.items }
        ensures learned { Learns self.old (Installs handler.0 version image.now.items) self.new }
        ensures state { self.new ≡ with_state self.old handler.0 (installs version image.now (state_at self.old.handlers handler.0)) }
        ensures handlers { length self.new.handlers ≡ length self.old.handlers }
    {
        let state = &mut self.handlers.as_mut_slice()[usize::from(handler.0)];
        state.install(version, NotedImage::of(image));
        self.summary = Summary::of(self.handlers.as_slice());
    }

    /// What is collected and marked is dropped.
    pub(crate) fn forget(&mut self)
        ensures learned { Learns self.old Forgets self.new }
        ensures handlers { length self.new.handlers ≡ length self.old.handlers }
        ensures images { HoldSame self.old self.new }
    {
        forget_each(self.handlers.as_mut_slice());
        self.summary = Summary::of(self.handlers.as_slice());
    }
}
