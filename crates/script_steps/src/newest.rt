//! The newest version of each handler so far; there are at most 8 handlers.

ghost use Rattle.std.specs.Prelude.{◌≡◌, slice_index, slice_set};

use mate_num::{HANDLERS_MAX, HandlerId};

/// The newest version of a handler, or 0 if it has none.
pub fn newest_of(newest: &[u32; HANDLERS_MAX], handler: HandlerId) -> u32
    ensures { result ≡ slice_index newest.now handler.0 }
{
    match newest.get(handler.0 as usize) {
        Some(version) => *version,
        None => 0,
    }
}

/// Records a version as the newest of a handler.
pub fn note_newest(newest: &mut [u32; HANDLERS_MAX], handler: HandlerId, version: u32)
    ensures { newest.new ≡ slice_set newest.old handler.0 version }
{
    let place = handler.0 as usize;
    if place < newest.len() {
        newest[place] = version;
    }
}
