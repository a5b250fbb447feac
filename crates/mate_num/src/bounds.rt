//! The limits of a machine, and the vectors of fixed room that hold its values, code, images and packets.

use arrayvec::ArrayVec;

/// The greatest length of a name, in bytes.
pub const NAME_MAX: usize = 16;

/// The greatest number of shared variables.
pub const SHARED_MAX: usize = 16;

/// The greatest number of buffers.
pub const BUFFERS_MAX: usize = 8;

/// The greatest number of functions.
pub const FUNCTIONS_MAX: usize = 32;

/// The greatest number of devices.
pub const DEVICES_MAX: usize = 8;

/// The greatest number of handlers.
pub const HANDLERS_MAX: usize = 8;

/// The greatest number of contexts of all handlers together.
pub const CONTEXTS_MAX: usize = 16;

/// How many private variables an invocation has.
pub const PRIVATES: usize = 8;

/// The greatest number of values on an invocation's stack.
pub const STACK_MAX: usize = 16;

/// The greatest number of values in a message, a buffer or a call's arguments.
pub const PAYLOAD_MAX: usize = 10;

/// The greatest length of a handler's code, in bytes.
pub const CODE_MAX: usize = 1_040;

/// The greatest length of code that a capsule of format 1 holds, in bytes.
pub const SHORT_CODE: usize = 512;

/// The length of the head of a capsule's image, in bytes: what stands before the code.
pub const IMAGE_HEAD: usize = 16;

/// The greatest length of a capsule's image, in bytes: its head and the code.
pub const IMAGE_MAX: usize = 1_056;

/// The greatest length of an image that is sent in small pieces, in bytes: that of a capsule of format 1.
pub const SHORT_IMAGE: usize = 528;

/// The greatest number of fragments that an image is sent in.
pub const FRAGMENTS_MAX: usize = 22;

/// The greatest number of nodes of a world.
pub const NODES_MAX: usize = 64;

/// The greatest length of a radio packet, in bytes.
pub const PACKET_MAX: usize = 64;

/// An hour, in ms: no event of a world comes later, and no period of a timer and no trickle interval is longer.
pub const HOUR: u32 = 3_600_000;

/// The values of a message, a buffer or a call's arguments.
pub type Payload = ArrayVec<i16, PAYLOAD_MAX>;

/// A handler's code.
pub type Code = ArrayVec<u8, CODE_MAX>;

/// A capsule as it is stored and sent.
pub type Image = ArrayVec<u8, IMAGE_MAX>;

/// The bytes of a radio packet.
pub type PacketBytes = ArrayVec<u8, PACKET_MAX>;

const _: () = prove!(IMAGE_HEAD + CODE_MAX == IMAGE_MAX);

const _: () = prove!(IMAGE_HEAD + SHORT_CODE == SHORT_IMAGE);
