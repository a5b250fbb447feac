//! What a node exchanges with its neighbours: capsules, and the radio that carries them.

ghost use Rattle.std.specs.Prelude.{◌≡◌, ◌<◌, ◌≤◌, length};
ghost use Rattle.mate_num.specs.declared.bounds.TheConstants.{HANDLERS_MAX, HOUR};
ghost use Rattle.packet_codec.specs.Packet.{IsRightPacket};
ghost use Rattle.script_steps.specs.World.{IsRightWorld};

use arrayvec::ArrayVec;
use capsule_exchange::{Exchange, Heard};
use mate_journal::{Aired, Airs};
use mate_num::{HandlerId, Image, NoMemory, PacketBytes, Stamp};
use packet_codec::Packet;
use radio_sim::{Cancel, Event, Radio};
use script_reader::World;
use std::alloc::Global;
use vm_desc::Description;

/// An exchange of a machine with so many handlers, and the packet with the versions that it holds: none.
pub fn begun(handlers: u8) -> (Exchange, Packet)
    requires low { 1 ≤ handlers }
    requires high { handlers ≤ HANDLERS_MAX }
{
    let mut exchange = Exchange::new(handlers);
    exchange.forget();
    let vector = exchange.vector();
    (exchange, vector)
}

/// A packet is heard: what the node asks for, and the image that the packet completes.
pub fn heard(exchange: &mut Exchange, packet: &Packet) -> (ArrayVec<Packet, 8>, Option<HandlerId>)
    requires { IsRightPacket (length exchange.old.handlers) packet.now }
{
    let Heard {
        consistent: _,
        asks,
        complete,
    } = exchange.hear(packet);
    (asks, complete)
}

/// An image is held from now on, unless it is empty or no newer version.
pub fn held(exchange: &mut Exchange, handler: HandlerId, version: u32, image: &Image)
    requires { handler.0 < length exchange.old.handlers }
{
    if exchange.held(handler) < version && !image.is_empty() {
        exchange.installed(handler, version, image);
    }
}

/// The image that is complete, and the fragment that is sent next, if one is asked for.
pub fn served(exchange: &mut Exchange, handler: HandlerId) -> (Option<Image>, Option<Packet>)
    requires { handler.0 < length exchange.old.handlers }
{
    let image = exchange.complete(handler);
    let packet = if exchange.marked() {
        exchange.pump()
    } else {
        None
    };
    (image, packet)
}

/// The radio of a world, with the first line of its script to come.
pub fn radio(alloc: Global, desc: &Description, world: &World) -> Result<Radio, NoMemory>
    requires { IsRightWorld desc.now world.now }
{
    let mut radio = Radio::new(alloc, world, desc)?;
    radio.schedule(0, Event::Planned(0))?;
    Ok(radio)
}

/// A node sends a packet, and all else that it waits for is cancelled: what happened on the air so far.
pub fn sent_by<'a>(
    radio: &'a mut Radio,
    node: u8,
    bytes: &PacketBytes,
    at: Stamp,
) -> Result<&'a [Aired], NoMemory>
    requires ahead { radio.old.agenda.now ≤ at.time }
    requires hour { at.time ≤ HOUR }
    requires few { length radio.old.air < 4000000000 }
{
    radio.transmit(node, bytes, at)?;
    radio.cancel(Cancel::Timer(node));
    radio.cancel(Cancel::Pump(node));
    radio.cancel(Cancel::Answers(node));
    Ok(radio.air())
}

/// The bytes that come over a link, if a packet comes next.
pub fn coming(radio: &mut Radio) -> Option<PacketBytes> {
    let (_time, event) = radio.next()?;
    match event {
        Event::Deliver {
            link: _,
            number: _,
            bytes,
        } => Some(bytes),
        Event::Planned(_)
        | Event::Period {
            node: _,
            handler: _,
        }
        | Event::Fire { node: _ }
        | Event::Expire { node: _ }
        | Event::Pump { node: _ }
        | Event::Due {
            node: _,
            ctx: _,
            inv: _,
            value: _,
        } => None,
    }
}

/// All that happened on the air, with one record more.
pub fn all_aired(radio: Radio, last: Aired) -> Result<Airs, NoMemory>
    requires { radio.gone ≡ 0 }
{
    let mut radio = radio;
    radio.note(last)?;
    Ok(radio.into_air())
}
