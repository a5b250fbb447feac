//! A stream that is at hand whole: it is cut at its first END, and what stands before that is a frame.

ghost use Rattle.std.specs.Prelude.{◌≡◌, [], false, Some, MatchOption, MatchResult};
ghost use Rattle.std.specs.List.{list_any};
ghost use Rattle.memchr.specs.Find.{is_byte, IsFirstByte};
ghost use Rattle.slip_gateway.specs.Pieces.{IsFirstPiece, frame_at, IsWholeFrame, fault_frame};
ghost use Rattle.slip_gateway.specs.Stream.{frames, unescaped};

use crate::slip::{END, ESC};
use mate_num::IMAGE_MAX;
use memchr::memchr;

/// Why a frame isn't whole.
#[derive(Clone, Copy)]
pub enum FrameFault {
    /// It has more than 1,056 bytes, and no broken escape.
    TooLong,
    /// An escape in it is broken.
    BadEscape,
}

/// The bytes before the first `END` of a stream, and those behind it; None exactly where it has none.
pub fn first_piece(stream: &[u8]) -> Option<(&[u8], &[u8])>
    ensures { MatchOption result (frames stream.now ≡ []) (λ cut. IsFirstPiece stream.now cut.0.now cut.1.now) }
{
    let length = first_end(stream)?;
    Some((&stream[..length], stream.split_at(length + 1).1))
}

// Where the first `END` stands. One that stands first is found without a search.
fn first_end(stream: &[u8]) -> Option<usize>
    ensures { IsFirstByte (is_byte END) stream.now result }
{
    match stream {
        [first, ..] if *first == END => Some(0),
        _ => memchr(END, stream),
    }
}

/// Whether an escape begins in the bytes of a frame. Where none does, they stand for themselves.
pub fn has_escape(piece: &[u8]) -> bool
    ensures value { result ≡ list_any (is_byte ESC) piece.now }
    ensures plain { result ≡ false → unescaped false piece.now ≡ Some piece.now }
{
    memchr(ESC, piece).is_some()
}

/// The bytes of a frame in which no escape begins: they stand for themselves.
pub fn plain_frame(piece: &[u8]) -> Result<&[u8], FrameFault>
    requires { unescaped false piece.now ≡ Some piece.now }
    ensures { MatchResult result (λ bytes. IsWholeFrame (frame_at piece.now) bytes.now) (λ fault. frame_at piece.now ≡ fault_frame fault) }
{
    if piece.len() > IMAGE_MAX {
        return Err(FrameFault::TooLong);
    }
    Ok(piece)
}
