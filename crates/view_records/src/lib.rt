//! A report as views need it: its lines one by one, from a reader, and what is known of nodes and invocations between them.
#![tactic(auto)]

pub mod fault;
pub mod flights;
pub mod ink;
pub mod lines;
pub mod locks;
pub mod nodes;
pub mod order;
pub mod row;
pub mod source;
pub mod stores;
pub mod stretch;
pub mod window;
pub mod words;

pub use fault::ViewFault;
pub use flights::{Flight, Flights, PACKET_KINDS, PacketKind};
pub use ink::{Fill, Ink};
pub use nodes::Nodes;
pub use row::{Cell, Form, write_head, write_row};
pub use source::Source;
pub use stretch::{Blocker, Live, Phase, Stretch, StretchEnd};
pub use window::{Kind, Window, all_nodes, kind_bit};
