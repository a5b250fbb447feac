//! Frames on a serial line (RFC 1055), piece by piece.

use mate_num::NoMemory;
use slip_gateway::{Frame, Frames, Slip};
use std::alloc::Global;

/// How many whole frames two pieces of a stream have, and whether the stream ends within one.
pub fn frames_of(alloc: Global, first: &[u8], second: &[u8]) -> Result<(usize, bool), NoMemory> {
    let mut slip = Slip::new();
    let mut frames = Frames::new(alloc);
    slip.feed(first, &mut frames)?;
    slip.feed(second, &mut frames)?;
    let mut whole = 0usize;
    for frame in frames.as_slice() {
        match frame {
            Frame::Whole(_) => whole = whole.saturating_add(1),
            Frame::TooLong | Frame::BadEscape => {}
        }
    }
    let _first: Option<&Frame> = frames.get(0);
    let _count: usize = frames.len();
    Ok((whole, slip.unfinished()))
}

/// A list of one frame.
pub fn a_list(alloc: Global, frame: Frame) -> Result<Frames, NoMemory> {
    let mut frames = Frames::new(alloc);
    frames.push(frame)?;
    Ok(frames)
}
