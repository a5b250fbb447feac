//! Random exchanges of two nodes with two handlers, from the first number of the stream: how many requests and how many
//! fragments were sent, how many of both were lost, how many images became complete, and the sum over all that was sent.

ghost use Rattle.std.specs.Prelude.{◌≡◌, ◌<◌, length, IsTrue};
ghost use Rattle.packet_codec.specs.Packet.{IsRightPacket};

use capsule_exchange::{Exchange, Heard};
use mate_num::{FRAGMENTS_MAX, HandlerId, Image};
use packet_codec::Packet;
use std::alloc::{AllocError, Global};

pub fn answer(alloc: Global, case: &str) -> Result<String, AllocError> {
    let Ok(state) = case.parse::<u32>() else {
        return "no number".to_string(alloc);
    };
    let mut air = Air::new(state);
    for number in 0..300 {
        if air.turn(number).is_none() {
            return format!(in alloc; "stopped at {number}");
        }
    }
    let Tally {
        asks,
        fragments,
        lost,
        complete,
        sum,
    } = air.tally;
    format!(in alloc; "{asks} {fragments} {lost} {complete} {sum}")
}

/// The lengths of the images that are exchanged.
const LENGTHS: [u16; 7] = [1, 24, 25, 100, 528, 529, 1056];

/// A stream of numbers.
#[derive(Drop)]
struct Draws {
    state: u32,
}

impl Draws {
    fn below(&mut self, n: u32) -> u32
        requires { 0 < n }
        ensures { result < n }
    {
        self.state = self
            .state
            .wrapping_mul(1_664_525)
            .wrapping_add(1_013_904_223);
        (self.state >> 16) % n
    }
}

/// How many requests and fragments were sent, how many of both were lost, how many images became complete,
/// and the sum over all that was sent.
#[derive(Drop)]
struct Tally {
    asks: u32,
    fragments: u32,
    lost: u32,
    complete: u32,
    sum: u32,
}

impl Tally {
    fn add(&mut self, number: u32) {
        self.sum = self.sum.wrapping_mul(31).wrapping_add(number);
    }

    fn add_packet(&mut self, packet: &Packet) {
        match packet {
            Packet::Status {
                handler,
                version,
                missing,
            } => {
                self.asks = self.asks.wrapping_add(1);
                self.add(u32::from(handler.0));
                self.add(*version);
                self.add(*missing);
            }
            Packet::Fragment {
                handler,
                version,
                index,
                count,
                large,
                bytes,
            } => {
                self.fragments = self.fragments.wrapping_add(1);
                self.add(u32::from(handler.0));
                self.add(*version);
                self.add(u32::from(*index));
                self.add(u32::from(*count));
                self.add(u32::from(*large));
                for byte in bytes.as_slice() {
                    self.add(u32::from(*byte));
                }
            }
            Packet::Vector { .. } | Packet::App { .. } => {}
        }
    }
}

// The image of a handler in a version.
fn image_of(handler: u8, version: u32) -> Image {
    let place = version.wrapping_mul(5).wrapping_add(u32::from(handler) * 3) % 7;
    let first = version
        .wrapping_mul(7)
        .wrapping_add(u32::from(handler) * 13);
    let mut image = Image::new();
    for k in 0..LENGTHS[place as usize] {
        let byte = first.wrapping_add(u32::from(k) * 31) % 256;
        let _ = image.try_push(byte as u8);
    }
    image
}

// Whether the packet is right for a machine with `handlers` handlers.
fn is_right(handlers: usize, packet: &Packet) -> bool
    ensures { IsTrue result → IsRightPacket handlers packet.now }
{
    match packet {
        Packet::Vector { versions } => versions.len() == handlers,
        Packet::Status {
            handler,
            version,
            missing,
        } => {
            usize::from(handler.0) < handlers
                && *version >= 1
                && *missing >= 1
                && *missing < 4_194_304
        }
        Packet::Fragment {
            handler,
            version,
            index,
            count,
            large,
            bytes,
        } => {
            let full = if *large { 48 } else { 24 };
            usize::from(handler.0) < handlers
                && *version >= 1
                && usize::from(*count) <= FRAGMENTS_MAX
                && *index < *count
                && !bytes.is_empty()
                && bytes.len() <= full
                && (u32::from(*index) + 1 == u32::from(*count) || bytes.len() == full)
        }
        Packet::App { payload } => payload.len() <= 10,
    }
}

// The node receives the packet, which is right for it, and asks for what it lacks.
fn hear(node: &mut Exchange, packet: &Packet) -> Option<Heard> {
    if !is_right(node.handlers(), packet) {
        return None;
    }
    Some(node.hear(packet))
}

// The node installs an image of a newer version.
fn install(node: &mut Exchange, handler: HandlerId, version: u32, image: &Image) -> Option<()> {
    if usize::from(handler.0) >= node.handlers() || image.is_empty() {
        return None;
    }
    if node.held(handler) >= version {
        return None;
    }
    node.installed(handler, version, image);
    Some(())
}

// The image that the node has collected of the handler.
fn collected(node: &Exchange, handler: HandlerId) -> Option<Image> {
    if usize::from(handler.0) >= node.handlers() {
        return None;
    }
    node.complete(handler)
}

/// Two nodes of a machine with two handlers, between which packets may be lost.
#[derive(Drop)]
struct Air {
    nodes: [Exchange; 2],
    draws: Draws,
    tally: Tally,
}

impl Air {
    // Two nodes that hold nothing, and the stream that begins with a number.
    fn new(state: u32) -> Air {
        Air {
            nodes: [Exchange::new(2), Exchange::new(2)],
            draws: Draws { state },
            tally: Tally {
                asks: 0,
                fragments: 0,
                lost: 0,
                complete: 0,
                sum: state,
            },
        }
    }

    // A node gets a new version of a handler.
    fn inject(&mut self, node: usize) -> Option<()>
        requires { node < 2 }
    {
        let handler = HandlerId(self.draws.below(2) as u8);
        let more = self.draws.below(2);
        if usize::from(handler.0) >= self.nodes[node].handlers() {
            return None;
        }
        let version = self.nodes[node]
            .held(handler)
            .wrapping_add(1)
            .wrapping_add(more);
        let image = image_of(handler.0, version);
        install(&mut self.nodes[node], handler, version, &image)
    }

    // Whether a packet that is sent arrives.
    fn carries(&mut self, packet: &Packet) -> bool {
        self.tally.add_packet(packet);
        let heard = self.draws.below(4) != 0;
        if !heard {
            self.tally.lost = self.tally.lost.wrapping_add(1);
        }
        heard
    }

    // A node sends its Vector, and receives what the other one asks for.
    fn tell(&mut self, node: usize) -> Option<()>
        requires { node < 2 }
    {
        let vector = self.nodes[node].vector();
        let heard = hear(&mut self.nodes[1 - node], &vector)?;
        let consistent = heard.consistent?;
        self.tally.add(u32::from(consistent));
        for ask in heard.asks.as_slice() {
            if self.carries(ask) {
                hear(&mut self.nodes[node], ask)?;
            }
        }
        Some(())
    }

    // A node sends a fragment, and the other one installs the image that it completes.
    fn pump(&mut self, node: usize) -> Option<()>
        requires { node < 2 }
    {
        let marked = self.nodes[node].marked();
        let sent = self.nodes[node].pump();
        if sent.is_some() != marked {
            return None;
        }
        let Some(packet) = sent else {
            return Some(());
        };
        if !self.carries(&packet) {
            return Some(());
        }
        let heard = hear(&mut self.nodes[1 - node], &packet)?;
        match (heard.complete, &packet) {
            (Some(handler), Packet::Fragment { version, .. }) => {
                self.complete(1 - node, handler, *version)
            }
            _ => Some(()),
        }
    }

    // A node installs the image that it has completed.
    fn complete(&mut self, node: usize, handler: HandlerId, version: u32) -> Option<()>
        requires { node < 2 }
    {
        let image = collected(&self.nodes[node], handler)?;
        if image.as_slice() != image_of(handler.0, version).as_slice() {
            return None;
        }
        install(&mut self.nodes[node], handler, version, &image)?;
        self.tally.complete = self.tally.complete.wrapping_add(1);
        self.tally.add(image.len() as u32);
        Some(())
    }

    // Does one of the things that can happen.
    fn turn(&mut self, number: u32) -> Option<()> {
        let what = self.draws.below(64);
        let node = self.draws.below(2) as usize;
        if what == 0 || number < 2 {
            self.inject(node)
        } else if what == 1 {
            self.nodes[node].forget();
            Some(())
        } else if what < 16 {
            self.tell(node)
        } else {
            self.pump(node)
        }
    }
}
