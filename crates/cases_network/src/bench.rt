//! The radio of a case.

ghost use Rattle.std.specs.Prelude.{◌≡◌};

use mate_files::FILE_MAX;
use mate_journal::{Air, Aired};
use mate_num::{HOUR, NoMemory, PacketBytes, Stamp};
use radio_sim::{Cancel, Event, Radio};
use script_reader::world_script;
use script_steps::{Link, World};
use std::alloc::Global;
use vm_shape::Description;

/// The radio of a world, the time of the last event that came, and its number.
#[derive(Drop)]
pub struct Bench {
    pub world: World,
    radio: Radio,
    time: u32,
    events: u64,
    ghost follows: { radio.agenda.now ≡ time },
}

/// How a step of a case ended.
#[derive(Drop)]
pub enum Step {
    Done,
    /// The time has passed, or there is no room on the air for it.
    Refused,
}

impl Bench {
    /// The radio of the world that a script plans, with `|` for the end of a line; None if it plans none.
    pub fn new(alloc: Global, desc: &Description, script: &str) -> Result<Option<Bench>, NoMemory> {
        let mut bytes = Vec::new(alloc);
        for byte in script.as_bytes() {
            bytes.push(if *byte == b'|' { b'\n' } else { *byte })?;
        }
        if bytes.len() > FILE_MAX {
            return Ok(None);
        }
        let Ok(world) = world_script(alloc, desc, bytes.as_slice()) else {
            return Ok(None);
        };
        let radio = Radio::new(alloc, &world, desc)?;
        Ok(Some(Bench {
            world,
            radio,
            time: 0,
            events: 0,
        }))
    }

    /// Schedules an event at a time that hasn't passed.
    pub fn schedule(&mut self, time: u32, event: Event) -> Result<Step, NoMemory> {
        if time < self.time {
            return Ok(Step::Refused);
        }
        self.radio.schedule(time, event)?;
        Ok(Step::Done)
    }

    /// The next event, with its time.
    pub fn next(&mut self) -> Option<(u32, Event)> {
        let (time, event) = self.radio.next()?;
        self.time = time;
        self.events = self.events.saturating_add(1);
        Some((time, event))
    }

    pub fn cancel(&mut self, which: Cancel) {
        self.radio.cancel(which);
    }

    /// The node sends a packet in the last event.
    pub fn transmit(&mut self, node: u8, bytes: &PacketBytes) -> Result<Step, NoMemory> {
        if self.time > HOUR || self.radio.aired() >= 1_000_000 {
            return Ok(Step::Refused);
        }
        let at = self.stamp();
        self.radio.transmit(node, bytes, at)?;
        Ok(Step::Done)
    }

    /// Records that a packet came over the link at a position, in the last event.
    pub fn note(&mut self, link: u32, number: u32) -> Result<Step, NoMemory> {
        let Some(link) = self.world.links.get(link as usize) else {
            return Ok(Step::Refused);
        };
        let Link { from, to, .. } = *link;
        let stamp = self.stamp();
        self.radio.note(Aired {
            stamp,
            node: to,
            air: Air::Got { number, from },
        })?;
        Ok(Step::Done)
    }

    /// What happened on the air.
    pub fn air(&self) -> &[Aired] {
        self.radio.air()
    }

    fn stamp(&self) -> Stamp
        ensures { result.time ≡ self.now.time }
    {
        Stamp {
            event: self.events,
            time: self.time,
        }
    }
}
