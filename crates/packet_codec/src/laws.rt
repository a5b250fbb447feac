//! The law of packets, as the contract of a function that does nothing.

ghost use Rattle.std.specs.Prelude.{◌≡◌, ℕ, List, length, Ok};
ghost use Rattle.vm_shape.specs.declared.description.Description.{Description};
ghost use Rattle.capsule_codec.specs.Image.{IsBytes};
ghost use Rattle.packet_codec.specs.declared.packet.Packet.{Packet};
ghost use Rattle.packet_codec.specs.Packet.{IsRightPacket, HasPacketRanges};
ghost use Rattle.packet_codec.specs.Bytes.{packet_bytes};
ghost use Rattle.packet_codec.specs.Reading.{packet_in};

/// A machine reads the bytes of a packet that is right for it as that packet; and bytes that it reads as
/// a packet are this packet's one form, and the packet is right for it.
pub fn one_form()
    ensures again { (d : Description) (p : Packet) → IsRightPacket (length d.handlers.items) p → HasPacketRanges p
        → packet_in d (packet_bytes d.vm_id p) ≡ Ok p }
    ensures only { (d : Description) (bytes : List ℕ) (p : Packet) → IsBytes bytes → packet_in d bytes ≡ Ok p
        → (bytes ≡ packet_bytes d.vm_id p) × IsRightPacket (length d.handlers.items) p × HasPacketRanges p }
{}
