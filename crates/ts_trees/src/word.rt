//! A name and its place.

use mate_num::Name;

/// A name as it is in a source.
#[derive(Drop)]
pub struct Word {
    pub name: Name,
    /// The place of its first byte in the source.
    pub place: u32,
}
