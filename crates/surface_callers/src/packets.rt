//! Packets: versions that are held, fragments that are asked for and sent, and the messages of handlers.

ghost use Rattle.std.specs.Prelude.{length};
ghost use Rattle.packet_codec.specs.Packet.{IsRightPacket};

use mate_num::PacketBytes;
use packet_codec::{Packet, PacketFault, decode, encode};
use vm_desc::Description;

/// The bytes of a packet.
pub fn sent(desc: &Description, packet: &Packet) -> PacketBytes
    requires { IsRightPacket (length desc.now.handlers.items) packet.now }
{
    encode(desc, packet)
}

/// The version that a received packet is of, if it is of one.
pub fn received(desc: &Description, bytes: &[u8]) -> Result<Option<u32>, PacketFault> {
    match decode(desc, bytes)? {
        Packet::Status {
            handler: _,
            version,
            missing: _,
        } => Ok(Some(version)),
        Packet::Fragment {
            handler: _,
            version,
            index: _,
            count: _,
            large: _,
            bytes: _,
        } => Ok(Some(version)),
        Packet::Vector { versions: _ } | Packet::App { payload: _ } => Ok(None),
    }
}

/// Whether a packet is refused since another machine sent it.
pub fn is_foreign(fault: PacketFault) -> bool {
    match fault {
        PacketFault::OtherVm => true,
        PacketFault::BadKind | PacketFault::BadLength | PacketFault::BadField => false,
    }
}
