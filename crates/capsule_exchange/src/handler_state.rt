//! What a node holds of one handler, what it collects of a newer version, and which fragments it has yet to send.

ghost use Rattle.std.specs.Prelude.{◌≡◌, ℕ, ◌<◌, ◌≤◌, length, false, IfSome, Some, if◌then◌else◌};
ghost use Rattle.mate_num.specs.declared.bounds.TheConstants.{FRAGMENTS_MAX};
ghost use Rattle.packet_codec.specs.Packet.{IsRightPacket};
ghost use Rattle.capsule_codec.specs.Fragments.{count_of};
ghost use Rattle.capsule_exchange.specs.Happenings.{fragment_of};
ghost use Rattle.capsule_exchange.specs.Steps.{aimed, takes, kept, hears_fragment, marked, hears_status, after_sending, installs, forgets, places_in, image_held, complete_in, ask_in};

use crate::kept_piece::KeptPiece;
use crate::noted_image::NotedImage;
use crate::pieces::{is_whole, join_into, missing_mask, no_marks, no_pieces};
use capsule_codec::{Piece, count, fragment};
use mate_num::{FRAGMENTS_MAX, HandlerId, Image, SHORT_IMAGE};
use packet_codec::Packet;

/// The count and the kind of an image's fragments.
#[derive(Clone, Copy)]
pub struct Form {
    /// From 1 to `FRAGMENTS_MAX`.
    pub count: u8,
    /// Whether the pieces have up to `PIECE_MAX` bytes, and not `SHORT_PIECE`.
    pub large: bool,
}

/// What a node knows of one handler.
#[derive(Drop)]
pub struct HandlerState {
    /// The version that is held, 0 for none.
    pub(crate) held: u32,
    /// The image that is held, without bytes for none.
    pub(crate) image: NotedImage,
    /// The newer version that is collected, 0 for none.
    pub(crate) target: u32,
    /// The form of the target's fragments, once one was received.
    pub(crate) form: Option<Form>,
    /// The pieces of the target that are collected.
    pub(crate) pieces: [Option<KeptPiece>; FRAGMENTS_MAX],
    /// The fragments of the held image that were asked for and not sent since.
    pub(crate) marks: [bool; FRAGMENTS_MAX],
}

impl Default for HandlerState {
    ghost use Rattle.std.specs.Prelude.{◌≡◌};
    ghost use Rattle.capsule_exchange.specs.Steps.{no_state};

    ghost is_default = { λ s. s ≡ no_state };

    /// Nothing is held, collected or owed.
    fn default() -> HandlerState {
        HandlerState {
            held: 0,
            image: NotedImage::none(),
            target: 0,
            form: None,
            pieces: no_pieces(),
            marks: no_marks(),
        }
    }
}

impl HandlerState {
    /// The version becomes the target if it is over the held one and the target.
    pub(crate) fn aim(&mut self, version: u32)
        ensures { self.new ≡ aimed version self.old }
    {
        if version > self.held && version > self.target {
            self.target = version;
            self.form = None;
            self.pieces = no_pieces();
        }
    }

    /// A fragment of this version was received.
    pub(crate) fn hear_fragment(&mut self, version: u32, index: u8, form: Form, bytes: &Piece)
        requires { index < FRAGMENTS_MAX }
        ensures { self.new ≡ hears_fragment version index form bytes.now self.old }
    {
        self.aim(version);
        if version > self.held && version == self.target {
            self.keep(index, form, bytes);
        }
    }

    // Keeps a fragment of the target if it goes with the first one and none of its index is kept.
    fn keep(&mut self, index: u8, form: Form, bytes: &Piece)
        requires { index < FRAGMENTS_MAX }
        ensures { self.new ≡ kept index form bytes.now self.old }
    {
        let place = usize::from(index);
        if self.takes(form) && self.pieces[place].is_none() {
            self.form = Some(form);
            self.pieces[place] = Some(KeptPiece::of(bytes));
        }
    }

    // Whether fragments of this count and kind go with those that are collected.
    fn takes(&self, form: Form) -> bool
        ensures { result ≡ takes form self.now.form }
    {
        match self.form {
            Some(first) => form.count == first.count && form.large == first.large,
            None => true,
        }
    }

    /// A Status asked for the fragments of this version that the bits of `missing` name.
    pub(crate) fn hear_status(&mut self, version: u32, missing: u32)
        ensures { self.new ≡ hears_status version missing self.old }
    {
        if version == self.held {
            mark(&mut self.marks, self.image.count(), missing);
        }
    }

    /// The fragment at `index` was sent.
    pub(crate) fn unmark(&mut self, index: usize)
        requires { index < FRAGMENTS_MAX }
        ensures { self.new ≡ after_sending index self.old }
    {
        self.marks[index] = false;
    }

    /// The image is held from now on.
    pub(crate) fn install(&mut self, version: u32, image: NotedImage)
        ensures { self.new ≡ installs version image self.old }
    {
        self.held = version;
        self.image = image;
        self.forget();
    }

    /// What is collected and asked for is forgotten.
    pub(crate) fn forget(&mut self)
        ensures { self.new ≡ forgets self.old }
    {
        self.target = 0;
        self.form = None;
        self.pieces = no_pieces();
        self.marks = no_marks();
    }

    // The places of the target's pieces, by index: as many as it has fragments, or all `FRAGMENTS_MAX` if no fragment was received.
    fn places(&self) -> &[Option<KeptPiece>]
        requires { IfSome self.now.form (λ form. form.count ≤ FRAGMENTS_MAX) }
        ensures value { result.now ≡ places_in self.now }
        ensures few { length result.now ≤ FRAGMENTS_MAX }
    {
        match self.form {
            Some(form) => &self.pieces[..usize::from(form.count)],
            None => &self.pieces,
        }
    }

    /// The target's image in the place of another: whether there is a target and no fragment of it is missing. Else that one stays.
    pub(crate) fn collect_into(&self, image: &mut Image) -> bool
        requires { IfSome self.now.form (λ form. form.count ≤ FRAGMENTS_MAX) }
        ensures held { (if result then Some image.new else None) ≡ image_held self.now }
        ensures kept { result ≡ false → image.new ≡ image.old }
    {
        join_into(self.places(), image)
    }

    /// The target if all its fragments are collected, else 0.
    pub(crate) fn complete_version(&self) -> u32
        requires { IfSome self.now.form (λ form. form.count ≤ FRAGMENTS_MAX) }
        ensures { result ≡ complete_in self.now }
    {
        if is_whole(self.places()) {
            self.target
        } else {
            0
        }
    }

    /// The request for the target's fragments that are missing.
    pub(crate) fn ask(&self, handler: HandlerId) -> Packet
        requires { IfSome self.now.form (λ form. form.count ≤ FRAGMENTS_MAX) }
        ensures { result ≡ ask_in handler self.now }
    {
        Packet::Status {
            handler,
            version: self.target,
            missing: missing_mask(self.places()),
        }
    }

    /// The fragment of the held image at `index`, as it is sent.
    pub(crate) fn fragment(&self, handler: HandlerId, index: u8, image: &Image) -> Packet
        requires held { image.now ≡ self.now.image }
        requires below { index < count_of self.now.image.items }
        ensures value { result ≡ fragment_of handler.0 self.now.held self.now.image.items index }
        ensures right { (n : ℕ) → handler.0 < n → 1 ≤ self.now.held → IsRightPacket n result }
    {
        let Some(bytes) = fragment(image, index) else {
            unreachable!()
        };
        Packet::Fragment {
            handler,
            version: self.held,
            index,
            count: count(image),
            large: image.len() > SHORT_IMAGE,
            bytes,
        }
    }
}

// Marks the places below the count that a bit of `missing` names.
fn mark(marks: &mut [bool; FRAGMENTS_MAX], count: u8, missing: u32)
    requires { count ≤ FRAGMENTS_MAX }
    ensures { marks.new ≡ marked count missing marks.old }
{
    for index in 0..usize::from(count) {
        if missing >> index & 1 == 1 {
            marks[index] = true;
        }
    }
}
