//! The memory of transmissions that are over, for those to come.

ghost use Rattle.std.specs.Prelude.{◌≡◌, [], IfOk};

use crate::shared::SharedPacket;
use crate::waiting::{Deliveries, no_deliveries};
use mate_num::{NoMemory, PacketBytes};
use std::alloc::Global;
use vm_shape::Description;

/// What transmissions took of memory and need no more: one that is sent when those before it are over takes little anew.
#[derive(Drop)]
pub struct Rooms {
    alloc: Global,
    /// The places of deliveries that came.
    deliveries: Vec<Deliveries>,
    /// How many such places were made.
    made: usize,
    /// The packet that was sent last. Where it came everywhere, the next one has its place.
    packet: Option<SharedPacket>,
}

impl Rooms {
    pub fn new(alloc: Global) -> Rooms {
        Rooms {
            alloc,
            deliveries: Vec::new(alloc),
            made: 0,
            packet: None,
        }
    }

    /// A packet that is sent, with a copy of the bytes, read for a machine.
    pub fn packet(
        &mut self,
        desc: &Description,
        bytes: &PacketBytes,
    ) -> Result<SharedPacket, NoMemory>
        ensures { IfOk result (λ packet. packet ≡ bytes.now) }
    {
        if let Some(packet) = &mut self.packet {
            if packet.replace(desc, bytes) {
                return packet.share();
            }
        }
        let packet = SharedPacket::new(self.alloc, desc, bytes)?;
        self.packet = Some(packet.share()?);
        Ok(packet)
    }

    /// A list for deliveries. It is empty.
    pub fn take(&mut self) -> Result<Deliveries, NoMemory>
        ensures { IfOk result (λ list. list.value.items ≡ []) }
    {
        if let Some(list) = self.deliveries.pop() {
            return Ok(cleared(list));
        }
        // (all lists that were made are in use: there is one more to keep later)
        self.made = self.made.saturating_add(1);
        self.deliveries.reserve(self.made)?;
        no_deliveries(self.alloc)
    }

    /// Keeps the list, whose deliveries came, if there is room for it. It takes no memory.
    pub fn keep(&mut self, list: Deliveries) {
        if self.deliveries.len() < self.deliveries.capacity() {
            self.deliveries.push_reserved(list);
        }
    }
}

/// The list without its deliveries.
fn cleared(list: Deliveries) -> Deliveries
    ensures { result.value.items ≡ [] }
{
    let mut list = list;
    list.as_mut().clear();
    list
}
