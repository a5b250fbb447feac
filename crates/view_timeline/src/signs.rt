//! The shapes of a timeline's marks: paths round a place.

use mate_journal::DropCause;
use view_records::PacketKind;

/// The classes of sent packets, a colour a kind.
const SENT: [&str; 5] = ["p k0", "p k1", "p k2", "p k3", "p k4"];

/// Those of packets that no node hears: they are hollow.
const UNHEARD: [&str; 5] = ["p k0 un", "p k1 un", "p k2 un", "p k3 un", "p k4 un"];

/// Those of the lines of packets that come to a node.
const CAME: [&str; 5] = ["came k0", "came k1", "came k2", "came k3", "came k4"];

/// The shapes of sent packets, one a kind.
const SHAPES: [&str; 5] = [
    "m-2.5-2.5h5v5h-5z",
    "m0-4l4 4-4 4-4-4z",
    "m-2.5-3.5l6 3.5-6 3.5z",
    "m-3 0a3 3 0 1 0 6 0a3 3 0 1 0-6 0z",
    "m-3-3l6 6m0-6l-6 6",
];

/// The shape of a sent packet.
pub fn packet_shape(kind: PacketKind) -> &'static str {
    SHAPES[usize::from(kind.place())]
}

/// The class of a sent packet.
pub fn packet_class(kind: PacketKind, heard: bool) -> &'static str {
    let place = usize::from(kind.place());
    if heard { SENT[place] } else { UNHEARD[place] }
}

/// The class of the line of a packet that comes to a node.
pub fn came_class(kind: PacketKind) -> &'static str {
    CAME[usize::from(kind.place())]
}

/// A dropped post: a ring if all contexts are busy, a crossed square if there is no code.
pub fn dropped(cause: DropCause) -> &'static str {
    match cause {
        DropCause::AllBusy => "m-3.5 0a3.5 3.5 0 1 0 7 0a3.5 3.5 0 1 0-7 0z",
        DropCause::NoCode => "m-3-3h6v6h-6zl6 6",
    }
}

/// A version that is installed.
pub const INSTALLED: &str = "l-4-8h8z";

/// A reset, over the height of a node's lane.
pub const RESET: &str = "v16m4-16v16";

/// Noise that a node hears.
pub const NOISE: &str = "m-5 0l2.5-4 2.5 8 2.5-8 2.5 4";

/// A vector that a node doesn't send, as it heard enough like it.
pub const KEPT: &str = "m-2.5-2.5h5v5h-5z";

/// A packet that is lost for a node above: a short line towards it, with a bar across its end.
pub const LOST_ABOVE: &str = "l3-9m-3-1h6";

/// A packet that is lost for a node below.
pub const LOST_BELOW: &str = "l3 9m-3 1h6";

/// Something that runs for no time.
pub const TICK: &str = "v9";

/// A cross, where an invocation is stopped.
pub const FAULT: &str = "m-4-4l8 8m0-8l-8 8";

/// A line, where an install or a reset cuts an invocation.
pub const CUT: &str = "v12";

/// An arrow, where an invocation lives when the report ends.
pub const LIVES: &str = "m0 2l7 4l-7 4z";

/// Dots, where something goes on behind the picture.
pub const GOES_ON: &str = "m2 5h2v2h-2zm4 0h2v2h-2zm4 0h2v2h-2z";
