//! Frames of a serial line.

ghost use Rattle.std.specs.Prelude.{◌≡◌, ◌≢◌, ◌<◌, ℕ, List, ◌∷◌, [], length, IfOk, MatchResult, Some, true, false};
ghost use Rattle.mate_num.specs.declared.bounds.TheConstants.{IMAGE_MAX};
ghost use Rattle.slip_gateway.specs.Stream.{closed_pieces, unescaped};
ghost use Rattle.slip_gateway.specs.declared.frames.Frame.TheVariants as frame;

use mate_num::NoMemory;
use slip_gateway::{FrameFault, Frames, Slip, has_escape, plain_frame, rest_of};
use std::alloc::Global;

pub fn an_escaped_end_is_a_byte(alloc: Global) -> Result<Frames, NoMemory>
    ensures { IfOk result (λ frames. frames ≡ frame.Whole (record { items = 1 ∷ 192 ∷ [] }) ∷ []) }
{
    let mut frames = Frames::new(alloc);
    Slip::new().feed(&[1, 219, 220, 192], &mut frames)?;
    Ok(frames)
}

pub fn an_open_escape_is_broken(alloc: Global) -> Result<Frames, NoMemory>
    ensures { IfOk result (λ frames. frames ≡ frame.BadEscape ∷ []) }
{
    let mut frames = Frames::new(alloc);
    Slip::new().feed(&[1, 219, 192], &mut frames)?;
    Ok(frames)
}

/// A piece that ends one frame of more than 1,056 bytes gives none of its bytes.
pub fn a_long_frame_has_no_bytes(alloc: Global, piece: &[u8]) -> Result<Frames, NoMemory>
    ensures { IfOk result (λ frames. (bytes whole : List ℕ) → closed_pieces [] piece.now ≡ bytes ∷ [] → bytes ≢ []
        → unescaped false bytes ≡ Some whole → IMAGE_MAX < length whole
        → frames ≡ frame.TooLong ∷ []) }
{
    let mut frames = Frames::new(alloc);
    Slip::new().feed(piece, &mut frames)?;
    Ok(frames)
}

pub fn an_escape_is_seen() -> bool
    ensures { result ≡ true }
{
    has_escape(&[1, 219, 220])
}

/// The bytes that may stand behind an escape begin none.
pub fn no_escape_is_seen() -> bool
    ensures { result ≡ false }
{
    has_escape(&[1, 220, 221])
}

pub fn a_plain_frame_has_its_own_bytes() -> Result<&'static [u8], FrameFault>
    ensures { MatchResult result (λ bytes. bytes.now ≡ 1 ∷ 220 ∷ 221 ∷ []) (λ _. ⊥) }
{
    plain_frame(&[1, 220, 221])
}

pub fn an_escaped_escape_is_a_byte(slip: &mut Slip) -> Result<&[u8], FrameFault>
    ensures { MatchResult result (λ bytes. bytes.now ≡ 219 ∷ 7 ∷ []) (λ _. ⊥) }
{
    slip.read_piece(&[219, 221, 7]);
    slip.frame()
}

/// What was read before is gone.
pub fn a_piece_is_read_anew(slip: &mut Slip) -> Result<&[u8], FrameFault>
    ensures { MatchResult result (λ bytes. bytes.now ≡ 7 ∷ []) (λ _. ⊥) }
{
    slip.read_piece(&[219]);
    slip.read_piece(&[7]);
    slip.frame()
}

pub fn what_stands_behind_the_last_end_is_left() -> &'static [u8]
    ensures { result.now ≡ 7 ∷ [] }
{
    rest_of(&[1, 192, 7])
}
