//! A packet that comes over several links.

ghost use Rattle.std.specs.Prelude.{◌≡◌, length, IfOk, IfSome, IsTrue, MatchBool};
ghost use Rattle.radio_sim.specs.Shared.{IsPacketOf};

use crate::wire::copy_of;
use mate_num::{NoMemory, PacketBytes};
use packet_codec::{Packet, decode};
use std::alloc::Global;
use std::marker::Model;
use std::rc::Rc;
use vm_shape::Description;

/// The bytes of a packet, and what they are to a machine.
#[derive(Drop)]
struct Reading {
    bytes: PacketBytes,
    /// The number of the machine, and how many handlers it has.
    vm_id: u32,
    handlers: usize,
    /// The packet, if the bytes are one.
    packet: Option<Packet>,
}

impl Reading {
    ghost use Rattle.radio_sim.specs.Shared.{IsRightReading};

    /// The bytes, read for a machine.
    fn of(desc: &Description, bytes: &PacketBytes) -> Reading
        ensures right { IsRightReading result }
        ensures bytes { result.bytes ≡ bytes.now }
    {
        Reading {
            bytes: copy_of(bytes),
            vm_id: desc.vm_id,
            handlers: desc.handlers.len(),
            packet: decode(desc, bytes.as_slice()).ok(),
        }
    }
}

/// A packet, whose bytes are in one place for all links that deliver it, with what they are to a machine, so that they are
/// read once. Contracts see the bytes.
#[derive(Drop)]
pub struct SharedPacket {
    reading: Rc<Reading>,
}

impl Model for SharedPacket {
    ghost use Rattle.std.specs.Prelude.{ℕ};
    ghost use Rattle.arrayvec.specs.ArrayVec.{ArrayVec};
    ghost use Rattle.radio_sim.specs.Shared.{IsRightReading};

    ghost Value = { ArrayVec ℕ };

    ghost view = { λ s. s.reading.value.bytes };

    ghost invariant = { λ s. IsRightReading s.reading.value };
}

impl SharedPacket {
    /// A copy of the bytes, with one owner, read for a machine.
    pub fn new(
        alloc: Global,
        desc: &Description,
        bytes: &PacketBytes,
    ) -> Result<SharedPacket, NoMemory>
        ensures { IfOk result (λ shared. shared ≡ bytes.now) }
    {
        match Rc::new(alloc, Reading::of(desc, bytes)) {
            Ok(reading) => Ok(SharedPacket { reading }),
            Err(_) => Err(NoMemory),
        }
    }

    /// The bytes, with one owner, read for no machine.
    pub fn unread(alloc: Global, bytes: PacketBytes) -> Result<SharedPacket, NoMemory>
        ensures { IfOk result (λ shared. shared ≡ bytes) }
    {
        let reading = Reading {
            bytes,
            vm_id: 0,
            handlers: 0,
            packet: None,
        };
        match Rc::new(alloc, reading) {
            Ok(reading) => Ok(SharedPacket { reading }),
            Err(_) => Err(NoMemory),
        }
    }

    /// Whether it has these bytes, and was read for the machine.
    fn is_of(&self, desc: &Description, bytes: &PacketBytes) -> bool
        ensures { IsTrue result → self.now ≡ bytes.now }
    {
        let reading = self.reading.as_ref();
        reading.vm_id == desc.vm_id
            && reading.handlers == desc.handlers.len()
            && reading.bytes.as_slice() == bytes.as_slice()
    }

    /// Another packet in its place, if it has no other owner: whether that is so. One that is there already stays, whoever else has it:
    /// nodes often send the same versions one after another, and these aren't read again.
    pub fn replace(&mut self, desc: &Description, bytes: &PacketBytes) -> bool
        ensures { MatchBool result (self.new ≡ bytes.now) (self.new ≡ self.old) }
    {
        if self.is_of(desc, bytes) {
            return true;
        }
        match Rc::get_mut(&mut self.reading) {
            Some(reading) => {
                *reading = Reading::of(desc, bytes);
                true
            }
            None => false,
        }
    }

    /// The same packet for one owner more. `NoMemory` comes if a machine word doesn't count the owners.
    pub fn share(&self) -> Result<SharedPacket, NoMemory>
        ensures { IfOk result (λ shared. shared ≡ self.now) }
    {
        match self.reading.clone() {
            Ok(reading) => Ok(SharedPacket { reading }),
            Err(_) => Err(NoMemory),
        }
    }

    /// The bytes.
    pub fn bytes(&self) -> &PacketBytes
        ensures { result.now ≡ self.now }
    {
        &self.reading.as_ref().bytes
    }

    /// The packet that the bytes are to the machine, if they were read for it and are one.
    pub fn packet(&self, desc: &Description) -> Option<&Packet>
        ensures { IfSome result (λ packet. IsPacketOf desc.now.vm_id (length desc.now.handlers.items) self.now.items packet.now) }
    {
        let reading = self.reading.as_ref();
        if reading.vm_id == desc.vm_id && reading.handlers == desc.handlers.len() {
            reading.packet.as_ref()
        } else {
            None
        }
    }
}
