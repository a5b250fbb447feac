//! From packets to bytes.

ghost use Rattle.std.specs.Prelude.{◌≡◌, ◌+◌, ◌*◌, ◌^◌, ◌<◌, ◌≤◌, ◌++◌, [], ◌∷◌, length, All, Ok, FitsSigned};
ghost use Rattle.mate_num.specs.declared.bounds.TheConstants.{PACKET_MAX};
ghost use Rattle.std.specs.Int.{w16};
ghost use Rattle.capsule_codec.specs.Image.{IsBytes};
ghost use Rattle.packet_codec.specs.Packet.{IsRightPacket, HasPacketRanges};
ghost use Rattle.packet_codec.specs.Bytes.{packet_bytes, first_byte_of, body_of, version_bytes, value_bytes};
ghost use Rattle.packet_codec.specs.Reading.{packet_in};

use crate::packet::Packet;
use mate_num::PacketBytes;
use vm_shape::Description;

/// The packet's one form as bytes: its kind, the machine's number, and its fields.
pub fn encode(desc: &Description, packet: &Packet) -> PacketBytes
    requires { IsRightPacket (length desc.now.handlers.items) packet.now }
    ensures bytes { result.items ≡ packet_bytes desc.now.vm_id packet.now }
    ensures ranges { HasPacketRanges packet.now }

    // The machine decodes it to this packet.
    ensures again { packet_in desc.now result.items ≡ Ok packet.now }
{
    let mut out = PacketBytes::new();
    out.push(kind(packet));
    put(&mut out, &desc.vm_id.to_be_bytes());
    put_body(&mut out, packet);
    out
}

// A packet's first byte.
fn kind(packet: &Packet) -> u8
    ensures { result ≡ first_byte_of packet.now }
{
    match packet {
        Packet::Vector { .. } => 1,
        Packet::Status { .. } => 2,
        Packet::Fragment { large: false, .. } => 3,
        Packet::App { .. } => 4,
        Packet::Fragment { large: true, .. } => 5,
    }
}

// Appends what comes after the machine's number.
fn put_body(out: &mut PacketBytes, packet: &Packet)
    requires { length out.old.items ≡ 5 }
    ensures bytes { out.new.items ≡ out.old.items ++ body_of packet.now }
    ensures ranges { HasPacketRanges packet.now }
{
    match packet {
        Packet::Vector { versions } => {
            out.push(versions.len() as u8);
            put_versions(out, versions.as_slice());
        }
        Packet::Status {
            handler,
            version,
            missing,
        } => {
            out.push(handler.0);
            put(out, &version.to_be_bytes());
            put(out, &missing.to_be_bytes());
        }
        Packet::Fragment {
            handler,
            version,
            index,
            count,
            large: _,
            bytes,
        } => {
            out.push(handler.0);
            put(out, &version.to_be_bytes());
            put(out, &[*index, *count]);
            put(out, bytes.as_slice());
        }
        Packet::App { payload } => {
            out.push(payload.len() as u8);
            put_values(out, payload.as_slice());
        }
    }
}

// Appends four bytes for each version.
fn put_versions(out: &mut PacketBytes, versions: &[u32])
    requires { length out.old.items + 4 * length versions.now ≤ PACKET_MAX }
    ensures bytes { out.new.items ≡ out.old.items ++ version_bytes versions.now }
    ensures ranges { All (λ version. version < 2 ^ 32) versions.now }
{
    for version in versions {
        put(out, &version.to_be_bytes());
    }
}

// Appends two bytes for each value.
fn put_values(out: &mut PacketBytes, values: &[i16])
    requires { length out.old.items + 2 * length values.now ≤ PACKET_MAX }
    ensures bytes { out.new.items ≡ out.old.items ++ value_bytes values.now }
    ensures ranges { All (λ value. FitsSigned w16 value) values.now }
{
    for value in values {
        put(out, &value.to_be_bytes());
    }
}

// Appends the bytes; there must be room for them.
fn put(out: &mut PacketBytes, bytes: &[u8])
    requires { length out.old.items + length bytes.now ≤ PACKET_MAX }
    ensures bytes { out.new.items ≡ out.old.items ++ bytes.now }
    ensures fits { IsBytes bytes.now }
{
    let Ok(()) = out.try_extend_from_slice(bytes) else {
        unreachable!()
    };
}
