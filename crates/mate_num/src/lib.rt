//! The numbers, names, resources and small types that every part of a Maté machine shares.
#![tactic(auto)]

pub mod bounds;
pub mod call;
pub mod id;
pub mod items;
pub mod lock_set;
pub mod name;
pub mod no_memory;
pub mod num16;
pub mod outcome;
pub mod resource;
pub mod shape;
pub mod store;
pub mod text;

pub use bounds::{
    BUFFERS_MAX, CODE_MAX, CONTEXTS_MAX, Code, DEVICES_MAX, FRAGMENTS_MAX, FUNCTIONS_MAX,
    HANDLERS_MAX, HOUR, IMAGE_HEAD, IMAGE_MAX, Image, NAME_MAX, NODES_MAX, PACKET_MAX, PAYLOAD_MAX,
    PRIVATES, PacketBytes, Payload, SHARED_MAX, SHORT_CODE, SHORT_IMAGE, STACK_MAX,
};
pub use call::{Call, End, FaultKind, Stamp};
pub use id::{BufId, ContextId, DeviceId, FunId, HandlerId, VarId};
pub use items::Items;
pub use lock_set::LockSet;
pub use name::Name;
pub use no_memory::NoMemory;
pub use num16::Num16;
pub use outcome::{Calls, Outcome};
pub use resource::Resource;
pub use shape::{FunShape, Shape};
pub use store::{Store, copy_of};
pub use text::{Text, Texts};
