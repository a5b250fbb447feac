//! From bytes to packets.

ghost use Rattle.std.specs.Prelude.{◌≡◌, ◌≤◌, length, IfOk, is_err, Ok};
ghost use Rattle.mate_num.specs.declared.bounds.TheConstants.{HANDLERS_MAX};
ghost use Rattle.packet_codec.specs.declared.packet.Packet.{Packet};
ghost use Rattle.packet_codec.specs.Bytes.{packet_bytes};
ghost use Rattle.packet_codec.specs.Reading.{packet_in, is_noise, body_in, vector_in, status_read, fragment_read, app_in, is_status, is_fragment, versions_in, values_in};
ghost use Rattle.packet_codec.specs.Packet.{full_len, IsRightPacket, HasPacketRanges};

use crate::packet::Packet;
use arrayvec::ArrayVec;
use capsule_codec::{PIECE_MAX, Piece, SHORT_PIECE};
use mate_num::{FRAGMENTS_MAX, HANDLERS_MAX, HandlerId, PAYLOAD_MAX, Payload};
use vm_shape::Description;

/// Why bytes are no packet of the machine.
#[derive(Clone, Copy, Debug)]
pub enum PacketFault {
    /// The packet is for another machine.
    OtherVm,
    /// No kind of packet has this first byte.
    BadKind,
    /// There are fewer than 5 bytes, or the length isn't one of the packet's kind.
    BadLength,
    /// A field is out of its range for the machine.
    BadField,
}

/// The packet that the bytes are for the machine, or the first fault, in this order: `BadLength` for fewer
/// than 5 bytes, `OtherVm`, `BadKind`, `BadLength`, `BadField`.
pub fn decode(desc: &Description, bytes: &[u8]) -> Result<Packet, PacketFault>
    ensures value { result ≡ packet_in desc.now bytes.now }
    ensures noise { is_err result ≡ is_noise desc.now bytes.now }

    // The bytes are the packet's one form, and it is right for the machine.
    ensures form { IfOk result (λ p. (bytes.now ≡ packet_bytes desc.now.vm_id p) × IsRightPacket (length desc.now.handlers.items) p) }
    // The bytes of a packet that is right for the machine decode to this packet.
    ensures only { (p : Packet) → IsRightPacket (length desc.now.handlers.items) p → HasPacketRanges p
        → bytes.now ≡ packet_bytes desc.now.vm_id p → result ≡ Ok p }
{
    read_packet(desc, bytes)
}

fn read_packet(desc: &Description, bytes: &[u8]) -> Result<Packet, PacketFault>
    ensures { result ≡ packet_in desc.now bytes.now }
{
    let [kind, m0, m1, m2, m3, body @ ..] = bytes else {
        return Err(PacketFault::BadLength);
    };
    if u32::from_be_bytes([*m0, *m1, *m2, *m3]) != desc.vm_id {
        return Err(PacketFault::OtherVm);
    }
    read_body(desc.handlers.len(), *kind, body)
}

// The packet of this kind with this body.
fn read_body(handlers: usize, kind: u8, body: &[u8]) -> Result<Packet, PacketFault>
    requires { handlers ≤ HANDLERS_MAX }
    ensures { result ≡ body_in handlers kind body.now }
{
    match kind {
        1 => read_vector(handlers, body),
        2 => read_status(handlers, body),
        3 => read_fragment(handlers, false, body),
        4 => read_app(body),
        5 => read_fragment(handlers, true, body),
        _ => Err(PacketFault::BadKind),
    }
}

fn read_vector(handlers: usize, body: &[u8]) -> Result<Packet, PacketFault>
    requires { handlers ≤ HANDLERS_MAX }
    ensures { result ≡ vector_in handlers body.now }
{
    let [count, bytes @ ..] = body else {
        return Err(PacketFault::BadLength);
    };
    let count = usize::from(*count);
    if bytes.len() != 4 * count {
        return Err(PacketFault::BadLength);
    }
    if count != handlers {
        return Err(PacketFault::BadField);
    }
    let versions = read_versions(bytes);
    Ok(Packet::Vector { versions })
}

fn read_versions(bytes: &[u8]) -> ArrayVec<u32, HANDLERS_MAX>
    requires { length bytes.now ≤ 32 }
    ensures { result.items ≡ versions_in bytes.now }
{
    let mut versions: ArrayVec<u32, HANDLERS_MAX> = ArrayVec::new();
    let mut rest = bytes;
    'versions: while let [a, b, c, d, after @ ..] = rest {
        versions.push(u32::from_be_bytes([*a, *b, *c, *d]));
        rest = after;
    }
    versions
}

fn read_status(handlers: usize, body: &[u8]) -> Result<Packet, PacketFault>
    ensures { result ≡ status_read handlers body.now }
{
    let [handler, v0, v1, v2, v3, m0, m1, m2, m3] = body else {
        return Err(PacketFault::BadLength);
    };
    let version = u32::from_be_bytes([*v0, *v1, *v2, *v3]);
    let missing = u32::from_be_bytes([*m0, *m1, *m2, *m3]);
    if !is_status(handlers, *handler, version, missing) {
        return Err(PacketFault::BadField);
    }
    Ok(Packet::Status {
        handler: HandlerId(*handler),
        version,
        missing,
    })
}

fn is_status(handlers: usize, handler: u8, version: u32, missing: u32) -> bool
    ensures { result ≡ is_status handlers handler version missing }
{
    usize::from(handler) < handlers && version != 0 && 1 <= missing && missing <= 4_194_303
}

fn read_fragment(handlers: usize, large: bool, body: &[u8]) -> Result<Packet, PacketFault>
    ensures { result ≡ fragment_read handlers large body.now }
{
    let [handler, v0, v1, v2, v3, index, count, bytes @ ..] = body else {
        return Err(PacketFault::BadLength);
    };
    if bytes.is_empty() || bytes.len() > full_len(large) {
        return Err(PacketFault::BadLength);
    }
    let version = u32::from_be_bytes([*v0, *v1, *v2, *v3]);
    if !is_fragment(
        handlers,
        *handler,
        version,
        *index,
        *count,
        large,
        bytes.len(),
    ) {
        return Err(PacketFault::BadField);
    }
    let Ok(bytes) = Piece::try_from(bytes) else {
        unreachable!()
    };
    Ok(Packet::Fragment {
        handler: HandlerId(*handler),
        version,
        index: *index,
        count: *count,
        large,
        bytes,
    })
}

fn is_fragment(
    handlers: usize,
    handler: u8,
    version: u32,
    index: u8,
    count: u8,
    large: bool,
    len: usize,
) -> bool
    ensures { result ≡ is_fragment handlers handler version index count large len }
{
    usize::from(handler) < handlers
        && version != 0
        && usize::from(count) <= FRAGMENTS_MAX
        && index < count
        && (u32::from(index) + 1 == u32::from(count) || len >= full_len(large))
}

// The length of a piece that isn't the last one, in bytes.
fn full_len(large: bool) -> usize
    ensures { result ≡ full_len large }
{
    if large { PIECE_MAX } else { SHORT_PIECE }
}

fn read_app(body: &[u8]) -> Result<Packet, PacketFault>
    ensures { result ≡ app_in body.now }
{
    let [count, bytes @ ..] = body else {
        return Err(PacketFault::BadLength);
    };
    let count = usize::from(*count);
    if bytes.len() != 2 * count {
        return Err(PacketFault::BadLength);
    }
    if count > PAYLOAD_MAX {
        return Err(PacketFault::BadField);
    }
    let payload = read_values(bytes);
    Ok(Packet::App { payload })
}

fn read_values(bytes: &[u8]) -> Payload
    requires { length bytes.now ≤ 20 }
    ensures { result.items ≡ values_in bytes.now }
{
    let mut values = Payload::new();
    let mut rest = bytes;
    'values: while let [a, b, after @ ..] = rest {
        values.push(i16::from_be_bytes([*a, *b]));
        rest = after;
    }
    values
}
