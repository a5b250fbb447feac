//! A stream of bytes in hexadecimal digits, cut into pieces of 1, 2, 3 and 512 bytes: its frames, and whether there
//! are bytes after its last end. A frame is its digits, or its length if it has more than 24 bytes.

ghost use Rattle.std.specs.Prelude.{◌<◌};

use capsule_codec::to_hex;
use cases_files::bytes_of;
use slip_gateway::{Frame, Frames, Slip};
use std::alloc::{AllocError, Global};

pub fn answer(alloc: Global, case: &str) -> Result<String, AllocError> {
    let Some(bytes) = bytes_of(alloc, case)? else {
        return "no digits".to_string(alloc);
    };
    let whole = told(alloc, &bytes, 512)?;
    for size in 1..4 {
        let pieces = told(alloc, &bytes, size)?;
        if pieces.as_str() != whole.as_str() {
            return format!(in alloc; "{pieces} in pieces of {size}");
        }
    }
    Ok(whole)
}

fn told(alloc: Global, bytes: &[u8], size: usize) -> Result<String, AllocError>
    requires { 0 < size }
{
    let mut slip = Slip::new();
    let mut frames = Frames::new(alloc);
    for piece in bytes.chunks(size) {
        if slip.feed(piece, &mut frames).is_err() {
            return "no memory".to_string(alloc);
        }
    }
    let end = if slip.unfinished() { " .." } else { "" };
    listed(alloc, &frames, end)
}

fn listed(alloc: Global, frames: &Frames, end: &str) -> Result<String, AllocError> {
    let mut line = format!(in alloc; "{}", frames.len())?;
    for frame in frames.as_slice() {
        line.push_str(" ")?;
        line.push_str(text_of(alloc, frame)?.as_str())?;
    }
    line.push_str(end)?;
    Ok(line)
}

fn text_of(alloc: Global, frame: &Frame) -> Result<String, AllocError> {
    match frame {
        Frame::Whole(image) if image.len() > 24 => format!(in alloc; "{} bytes", image.len()),
        Frame::Whole(image) => match to_hex(alloc, image) {
            Ok(digits) => Ok(digits),
            Err(fault) => fault.to_string(alloc),
        },
        Frame::TooLong => "too long".to_string(alloc),
        Frame::BadEscape => "bad escape".to_string(alloc),
    }
}
