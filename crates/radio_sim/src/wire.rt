//! The links that leave a node, with the words that decide over their packets.

ghost use Rattle.std.specs.Prelude.{◌≡◌, ◌%◌, [], ◌∷◌, ◌++◌, nat_lt, map, MatchResult, IfOk};
ghost use Rattle.radio_sim.specs.Sending.{IsFurther};
ghost use Rattle.radio_sim.specs.Wires.{wire_after, turned_wire, losts, carried_by};

use crate::shared::SharedPacket;
use crate::waiting::Delivery;
use mate_journal::{Air, Aired, Airs};
use mate_num::{NoMemory, PacketBytes, Stamp};
use rand_core::utils::NextWord;
use rand_pcg::Lcg64Xsh32;
use script_steps::Link;
use std::alloc::Global;
use std::collections::VecDeque;
use std::marker::Model;

/// A link that leaves a node.
#[derive(Drop)]
pub struct Wire {
    /// Its position among the links of the world.
    pub link: u32,
    pub to: u8,
    /// How many of a thousand packets are lost.
    pub loss: u16,
    /// The word that decides over the next packet.
    pub word: u32,
    /// The words after it.
    pub words: Lcg64Xsh32,
}

impl Wire {
    /// A link of a world, before its first packet.
    pub fn new(random: u64, position: u32, link: Link) -> Wire
        ensures { result ≡ wire_after random 0 position link }
    {
        let mut words = Lcg64Xsh32::new(random, 128 + u64::from(position));
        let word = words.next_word();
        Wire {
            link: position,
            to: link.to,
            loss: link.loss,
            word,
            words,
        }
    }

    /// Whether the next packet is lost.
    fn loses(&self) -> bool
        ensures { result ≡ nat_lt (self.now.word % 1000) self.now.loss }
    {
        self.word % 1000 < u32::from(self.loss)
    }

    /// Goes on to the next word.
    fn turn(&mut self)
        ensures { self.new ≡ turned_wire self.old }
    {
        self.word = self.words.next_word();
    }
}

/// The links that leave one node, in their order. Contracts see the list.
#[derive(Drop)]
pub struct Wires {
    wires: Vec<Wire>,
}

impl Model for Wires {
    ghost use Rattle.std.specs.Prelude.{List};
    ghost use Rattle.radio_sim.specs.declared.wire.Wire.{Wire};

    ghost Value = { List Wire };

    ghost view = { λ w. w.wires.items };
}

/// A packet on the air.
#[derive(Clone, Copy)]
pub struct Sending {
    /// When and in which event it was sent.
    pub at: Stamp,
    pub node: u8,
    /// The number of its transmission.
    pub number: u32,
}

impl Wires {
    pub fn new(alloc: Global) -> Wires
        ensures { result ≡ [] }
    {
        Wires {
            wires: Vec::new(alloc),
        }
    }

    /// Appends a link. `NoMemory` leaves the list as it was.
    pub fn push(&mut self, wire: Wire) -> Result<(), NoMemory>
        ensures { MatchResult result (λ _. self.new ≡ self.old ++ wire ∷ []) (λ _. self.new ≡ self.old) }
    {
        self.wires.push(wire)?;
        Ok(())
    }

    /// Each link carries the packet or loses it, in their order. `NoMemory` leaves what was recorded before.
    pub fn carry(
        &self,
        sending: Sending,
        packet: &SharedPacket,
        air: &mut Airs,
        carried: &mut VecDeque<Delivery>,
    ) -> Result<(), NoMemory>
        ensures air { IfOk result (λ _. air.new ≡ air.old ++ losts sending self.now) }
        ensures carried { IfOk result (λ _. carried.new.items ≡ carried.old.items ++ carried_by sending packet.now self.now) }
        ensures kept { IsFurther air.old air.new }
    {
        // (room for all at once)
        carried.reserve(self.wires.len())?;
        for wire in &self.wires {
            if wire.loses() {
                air.push(Aired {
                    stamp: sending.at,
                    node: sending.node,
                    air: Air::Lost {
                        number: sending.number,
                        to: wire.to,
                    },
                })?;
            } else {
                let copy = packet.share()?;
                carried.push_back(Delivery {
                    link: wire.link,
                    number: sending.number,
                    bytes: copy,
                })?;
            }
        }
        Ok(())
    }

    /// Each link goes on to its next word.
    pub fn turn(&mut self)
        ensures { self.new ≡ map turned_wire self.old }
    {
        for wire in self.wires.iter_mut() {
            wire.turn();
        }
    }
}

/// A copy of a packet's bytes.
pub fn copy_of(bytes: &PacketBytes) -> PacketBytes
    ensures { result ≡ bytes.now }
{
    let mut copy = PacketBytes::new();
    let Ok(()) = copy.try_extend_from_slice(bytes.as_slice()) else {
        unreachable!()
    };
    copy
}
