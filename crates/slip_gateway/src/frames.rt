//! Frames, in the order in which they were closed.

ghost use Rattle.std.specs.Prelude.{◌≡◌, [], ◌∷◌, ◌++◌, length, slice_get, MatchResult};
ghost use Rattle.std.specs.Option.{option_copied};

use mate_num::{Image, NoMemory};
use std::alloc::Global;
use std::marker::Model;

/// What a frame gives.
#[derive(Drop)]
pub enum Frame {
    /// Its bytes, at most 1,056.
    Whole(Image),
    /// It has more than 1,056 bytes.
    TooLong,
    /// An escape byte in it doesn't stand before one of the two bytes that it may stand before.
    BadEscape,
}

/// Frames. Contracts see the list.
#[derive(Drop)]
pub struct Frames {
    pub(crate) frames: Vec<Frame>,
}

impl Model for Frames {
    ghost use Rattle.std.specs.Prelude.{List};
    ghost use Rattle.slip_gateway.specs.declared.frames.Frame.{Frame};

    ghost Value = { List Frame };

    ghost view = { λ f. f.frames.items };
}

impl Frames {
    /// No frames. It takes no memory.
    pub fn new(alloc: Global) -> Frames
        ensures { result ≡ [] }
    {
        Frames {
            frames: Vec::new(alloc),
        }
    }

    /// Appends a frame. `NoMemory` leaves the frames as they were.
    pub fn push(&mut self, frame: Frame) -> Result<(), NoMemory>
        ensures { MatchResult result (λ _. self.new ≡ self.old ++ frame ∷ []) (λ _. self.new ≡ self.old) }
    {
        self.frames.push(frame)?;
        Ok(())
    }

    /// Drops the frames, and keeps the room that they took.
    pub fn clear(&mut self)
        ensures { self.new ≡ [] }
    {
        self.frames.clear();
    }

    pub fn len(&self) -> usize
        ensures { result ≡ length self.now }
    {
        self.frames.len()
    }

    /// The frame at `index`, from 0; None exactly from the length on.
    pub fn get(&self, index: usize) -> Option<&Frame>
        ensures { option_copied result ≡ slice_get self.now index }
    {
        self.frames.get(index)
    }

    pub fn as_slice(&self) -> &[Frame]
        ensures { result.now ≡ self.now }
    {
        self.frames.as_slice()
    }
}
