//! Packets.

ghost use Rattle.std.specs.Prelude.{◌≡◌, slice_get, Err, Some, true};
ghost use Rattle.packet_codec.specs.declared.decoding.PacketFault.TheVariants.{OtherVm, BadLength, BadField};

use capsule_codec::Piece;
use mate_num::{HandlerId, PacketBytes};
use packet_codec::{Packet, PacketFault, decode, encode};
use vm_shape::Description;

pub fn no_bytes_are_no_packet(desc: &Description) -> Result<Packet, PacketFault>
    ensures { result ≡ Err BadLength }
{
    decode(desc, &[])
}

pub fn another_machines_packet_has_no_kind(desc: &Description) -> Result<Packet, PacketFault>
    requires { desc.now.vm_id ≡ 2 }
    ensures { result ≡ Err OtherVm }
{
    decode(desc, &[0, 0, 0, 0, 1])
}

pub fn a_count_is_no_index(desc: &Description) -> Result<Packet, PacketFault>
    requires { desc.now.vm_id ≡ 1 }
    ensures { result ≡ Err BadField }
{
    decode(desc, &[3, 0, 0, 0, 1, 0, 0, 0, 0, 1, 1, 1, 7])
}

pub fn a_mask_has_22_bits(desc: &Description) -> Result<Packet, PacketFault>
    requires { desc.now.vm_id ≡ 1 }
    ensures { result ≡ Err BadField }
{
    decode(desc, &[2, 0, 0, 0, 1, 0, 0, 0, 0, 1, 0, 64, 0, 0])
}

pub fn a_large_fragment_has_a_kind_of_its_own(desc: &Description) -> PacketBytes
    ensures { slice_get result.items 0 ≡ Some 5 }
{
    let mut bytes = Piece::new();
    bytes.push(7);
    let packet = Packet::Fragment {
        handler: HandlerId(0),
        version: 1,
        index: 0,
        count: 1,
        large: true,
        bytes,
    };
    encode(desc, &packet)
}
