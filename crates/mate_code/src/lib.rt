//! The byte code of a machine in the manner of Maté (Levis, Gay and Culler, "Active Sensor Networks", NSDI 2005):
//! instructions, their opcodes, and what they mean.
#![tactic(auto)]

pub mod codec_laws;
pub mod decoding;
pub mod encoding;
pub mod fault;
pub mod flow;
pub mod instr;
pub mod instrs;
pub mod kind;
pub mod laws;
pub mod printing;
pub mod row;
pub mod table;
pub mod uses;

pub use codec_laws::{each_opcode_once, one_encoding};
pub use decoding::{DecodeFault, decode, read_instr};
pub use encoding::{TooLong, encode};
pub use fault::VerifyFault;
pub use flow::{Flow, args};
pub use instr::Instr;
pub use instrs::Instrs;
pub use kind::{Kind, OperandForm};
pub use laws::{
    changes_what_it_writes, ends_in_time, ends_once, goes_on_with_an_answer,
    is_sound_where_verified, sees_what_it_uses,
};
pub use printing::listing;
pub use row::{Opcode, Pops, Row};
pub use table::Table;
pub use uses::Use;
