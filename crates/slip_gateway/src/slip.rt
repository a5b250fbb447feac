//! The reader of a stream: it is given the bytes in pieces, and keeps what the pieces so far leave open.

ghost use Rattle.std.specs.Prelude.{◌≡◌, ◌≢◌, ◌+◌, ◌≤◌, List, ℕ, [], ◌∷◌, ◌++◌, OnOk, OnErr, IsTrue, ◌↔◌, count_by, vec_len, vec_capacity, option_to_list, length, MatchResult};
ghost use Rattle.mate_num.specs.declared.bounds.TheConstants.{IMAGE_MAX};
ghost use Rattle.slip_gateway.specs.Fed.{fresh_slip, is_fresh, added, replaced, pushed, frame_left, IsBehind, HasFed};
ghost use Rattle.slip_gateway.specs.Pieces.{frame_at, IsWholeFrame, fault_frame};
ghost use Rattle.slip_gateway.specs.Stream.{is_end_byte, rest_behind, unfinished, frames_behind, frames};

use crate::frames::{Frame, Frames};
use crate::pieces::FrameFault;
use mate_num::{Image, NoMemory};
use memchr::memrchr;
use std::mem;

/// Ends a frame.
pub const END: u8 = 192;

/// Begins an escape within a frame.
pub const ESC: u8 = 219;

/// Behind `ESC`: a byte `END`.
pub const ESC_END: u8 = 220;

/// Behind `ESC`: a byte `ESC`.
pub const ESC_ESC: u8 = 221;

/// How the escapes of the frame stand that has begun.
#[derive(Clone, Copy, PartialEq, Eq)]
enum Escapes {
    /// Each has its second byte.
    Whole,
    /// The last byte is an `ESC`.
    Open,
    /// One is broken.
    Broken,
}

/// A reader of a stream of frames. It takes no memory of its own.
#[derive(Drop)]
pub struct Slip {
    // The bytes of the frame that has begun, with its escapes replaced: the first 1,056.
    image: Image,
    // There were more.
    too_long: bool,
    escapes: Escapes,
}

/// The law by which a stream may be cut anywhere: the frames of two parts, one behind the other, are those of the first,
/// and then those that the second one closes behind what the first one left.
pub fn frames_compose()
    ensures frames { (first second : List ℕ) → frames (first ++ second) ≡ frames first ++ frames_behind (unfinished first) second }
    ensures rest { (first second : List ℕ) → unfinished (first ++ second) ≡ rest_behind (unfinished first) second }
{}

/// A stream has at most as many frames as bytes.
pub fn frames_are_few()
    ensures { (stream : List ℕ) → length (frames stream) ≤ length stream }
{}

/// The bytes behind the last `END` of a stream; all of them where it has none.
pub fn rest_of(stream: &[u8]) -> &[u8]
    ensures rest { result.now ≡ unfinished stream.now }
    ensures within { length result.now ≤ length stream.now }
{
    match memrchr(END, stream) {
        Some(place) => &stream[place + 1..],
        None => stream,
    }
}

// How many frames a piece closes at most.
fn ends_in(piece: &[u8]) -> usize
    ensures { result ≡ count_by is_end_byte piece.now }
{
    piece.iter().filter(|byte| **byte == END).count()
}

impl Slip {
    /// A reader that was given nothing.
    pub fn new() -> Slip
        ensures fed { HasFed result [] }
        ensures fresh { result ≡ fresh_slip }
    {
        Slip {
            image: Image::new(),
            too_long: false,
            escapes: Escapes::Whole,
        }
    }

    /// Reads the next bytes of the stream, and appends the frames that they close to `into`. `NoMemory` leaves both as
    /// they were: room for one frame for each `END` is taken first.
    pub fn feed(&mut self, piece: &[u8], into: &mut Frames) -> Result<(), NoMemory>
        ensures fed { OnOk result ((fed : List ℕ) → HasFed self.old fed → HasFed self.new (fed ++ piece.now)) }
        ensures appends { OnOk result ((fed : List ℕ) → HasFed self.old fed
            → into.new ≡ into.old ++ frames_behind (unfinished fed) piece.now) }

        // However the bytes are cut, it holds the frames of all of them.
        ensures holds { OnOk result ((fed : List ℕ) → HasFed self.old fed → into.old ≡ frames fed → into.new ≡ frames (fed ++ piece.now)) }
        ensures slip_unchanged { OnErr result (self.new ≡ self.old) }
        ensures frames_unchanged { OnErr result (into.new ≡ into.old) }
    {
        into.frames.reserve(ends_in(piece))?;
        self.read(piece, &mut into.frames);
        Ok(())
    }

    /// Reads the next byte of the stream, and gives the frame that it closes. It takes no memory.
    pub fn read_byte(&mut self, byte: u8) -> Option<Frame>
        ensures fed { (fed : List ℕ) → HasFed self.old fed → HasFed self.new (fed ++ byte ∷ []) }
        ensures frame { (fed : List ℕ) → HasFed self.old fed → frames (fed ++ byte ∷ []) ≡ frames fed ++ option_to_list result }

        // So behind the bytes of a frame, and a frame comes only at an `END`.
        ensures reads { (begun : List ℕ) → IsBehind self.old begun →
            IsBehind self.new (rest_behind begun (byte ∷ [])) × (option_to_list result ≡ frames_behind begun (byte ∷ [])) }
        ensures few { length (option_to_list result) ≤ count_by is_end_byte (byte ∷ []) }
    {
        if byte != END {
            self.push(byte);
            return None;
        }
        self.close()
    }

    /// Reads the bytes of a frame, as they stand before its `END`, in place of all that was read. It takes no memory.
    pub fn read_piece(&mut self, piece: &[u8])
        ensures { IsBehind self.new piece.now }
    {
        self.clear();
        for byte in piece {
            self.push(*byte);
        }
    }

    /// The bytes of the frame that has begun, its escapes replaced, if it ends here.
    pub fn frame(&self) -> Result<&[u8], FrameFault>
        ensures { (begun : List ℕ) → IsBehind self.now begun →
            MatchResult result (λ bytes. IsWholeFrame (frame_at begun) bytes.now) (λ fault. frame_at begun ≡ fault_frame fault) }
    {
        let _fits = self.image.is_full();
        match self.escapes {
            Escapes::Whole if self.too_long => Err(FrameFault::TooLong),
            Escapes::Whole => Ok(self.image.as_slice()),
            Escapes::Open | Escapes::Broken => Err(FrameFault::BadEscape),
        }
    }

    // Forgets what was read.
    fn clear(&mut self)
        ensures { self.new ≡ fresh_slip }
    {
        self.image.clear();
        self.too_long = false;
        self.escapes = Escapes::Whole;
    }

    /// Whether bytes stand behind the last `END`.
    pub fn unfinished(&self) -> bool
        ensures { (fed : List ℕ) → HasFed self.now fed → (IsTrue result ↔ (unfinished fed ≢ [])) }
    {
        !self.is_fresh()
    }

    // The frame that has begun has no bytes.
    fn is_fresh(&self) -> bool
        ensures { result ≡ is_fresh self.now }
    {
        self.escapes == Escapes::Whole && self.image.is_empty()
    }

    // Reads bytes; there is room for the frames that they close.
    fn read(&mut self, piece: &[u8], into: &mut Vec<Frame>)
        requires { vec_len into.old + count_by is_end_byte piece.now ≤ vec_capacity into.old }
        ensures { (begun : List ℕ) → IsBehind self.old begun →
            IsBehind self.new (rest_behind begun piece.now) × (into.new.items ≡ into.old.items ++ frames_behind begun piece.now) }
    {
        for byte in piece {
            self.take_byte(*byte, into);
        }
    }

    // Reads a byte; there is room for the frame that it closes.
    fn take_byte(&mut self, byte: u8, into: &mut Vec<Frame>)
        requires { vec_len into.old + count_by is_end_byte (byte ∷ []) ≤ vec_capacity into.old }
        ensures reads { (begun : List ℕ) → IsBehind self.old begun →
            IsBehind self.new (rest_behind begun (byte ∷ [])) × (into.new.items ≡ into.old.items ++ frames_behind begun (byte ∷ [])) }
        ensures len { vec_len into.new ≤ vec_len into.old + count_by is_end_byte (byte ∷ []) }
        ensures capacity { vec_capacity into.new ≡ vec_capacity into.old }
    {
        if let Some(frame) = self.read_byte(byte) {
            into.push_reserved(frame);
        }
    }

    // Ends the frame, and gives it where it has bytes.
    fn close(&mut self) -> Option<Frame>
        ensures frame { result ≡ frame_left self.old }
        ensures after { self.new ≡ fresh_slip }
        ensures fits { length self.old.image.items ≤ IMAGE_MAX }
    {
        let _fits = self.image.is_full();
        // (nothing is moved where a frame has no bytes)
        if self.is_fresh() {
            self.too_long = false;
            return None;
        }
        let begun = mem::replace(self, Slip::new());
        Some(match begun.escapes {
            Escapes::Whole if begun.too_long => Frame::TooLong,
            Escapes::Whole => Frame::Whole(begun.image),
            Escapes::Open | Escapes::Broken => Frame::BadEscape,
        })
    }

    // Reads a byte of the frame.
    fn push(&mut self, byte: u8)
        ensures { self.new ≡ pushed self.old byte }
    {
        match self.escapes {
            Escapes::Whole => {
                if byte == ESC {
                    self.escapes = Escapes::Open;
                } else {
                    self.add(byte);
                }
            }
            Escapes::Open => self.replace(byte),
            Escapes::Broken => {}
        }
    }

    // Reads the byte behind an `ESC`.
    fn replace(&mut self, byte: u8)
        ensures { self.new ≡ replaced self.old byte }
    {
        self.escapes = Escapes::Whole;
        match byte {
            ESC_END => self.add(END),
            ESC_ESC => self.add(ESC),
            _ => self.escapes = Escapes::Broken,
        }
    }

    fn add(&mut self, byte: u8)
        ensures { self.new ≡ added self.old byte }
    {
        if self.image.is_full() {
            self.too_long = true;
        } else {
            self.image.push(byte);
        }
    }
}
