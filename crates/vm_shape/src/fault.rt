//! Why a text is no description.

use crate::key::Key;
use mate_num::Name;

/// Why a text is no description. If several causes hold, the first in this order is given; of the causes that name a
/// key, the key that comes first counts, and at one key `OverLimit`.
#[derive(Drop)]
pub enum DescFault {
    /// The text is no TOML, or its bytes aren't UTF-8.
    NotToml,
    /// The value of `key` is missing, of another type or out of its range. `Key::Unknown`, which comes before all
    /// others, is any key that no description has.
    BadField { key: Key },
    /// The list of `key` is too long. `Key::HandlerContexts`, after all other keys, says that the
    /// handlers have more than `CONTEXTS_MAX` contexts in all.
    OverLimit { key: Key },
    /// `name` is the first name that is in its list a second time: shared variables and buffers are one list, which is
    /// checked before those of the devices, the handlers and the functions.
    Duplicate { name: Name },
    /// A round of all handlers' packets needs `need` ms, but the longest interval has `have` ms.
    SlowImax { need: u64, have: u64 },
    /// Memory was refused.
    NoMemory,
}
