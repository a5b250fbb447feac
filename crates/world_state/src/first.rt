//! What is recorded of the air first in an event.

ghost use Rattle.std.specs.Prelude.{◌≡◌, None, Some};
ghost use Rattle.mate_journal.specs.declared.air.Air.TheVariants as air;
ghost use Rattle.world_state.specs.First.{first_told};

use mate_num::PacketBytes;
use radio_sim::wire::copy_of;
use std::marker::Model;

/// Which kind of record it is, whole but for the bytes of noise.
#[derive(Clone, Copy)]
enum Kind {
    Nothing,
    Keep,
    Got { number: u32, from: u8 },
    Noise,
}

/// What an event records of the air first, if anything. Contracts see it as an `Option<Air>`. The bytes of noise stand apart, so that
/// what comes in most events is written and read without the room for them.
#[derive(Drop)]
pub struct First {
    kind: Kind,
    noise: PacketBytes,
}

impl Model for First {
    ghost use Rattle.std.specs.Prelude.{Option};
    ghost use Rattle.mate_journal.specs.declared.air.Air.{Air};
    ghost use Rattle.world_state.specs.First.{kind_air};

    ghost Value = { Option Air };

    ghost view = { λ f. kind_air f.noise f.kind };
}

/// The same, as it is read.
#[derive(Clone, Copy)]
pub enum FirstTold<'a> {
    Nothing,
    Keep,
    Got { number: u32, from: u8 },
    Noise(&'a PacketBytes),
}

impl First {
    /// Nothing.
    pub fn nothing() -> First
        ensures { result ≡ None }
    {
        First {
            kind: Kind::Nothing,
            noise: PacketBytes::new(),
        }
    }

    /// Nothing again.
    pub fn clear(&mut self)
        ensures { self.new ≡ None }
    {
        self.kind = Kind::Nothing;
    }

    /// The timer's point came, and nothing was sent.
    pub fn keep(&mut self)
        ensures { self.new ≡ Some air.Keep }
    {
        self.kind = Kind::Keep;
    }

    /// The packet of this number was received from node `from`.
    pub fn got(&mut self, number: u32, from: u8)
        ensures { self.new ≡ Some (air.Got number from) }
    {
        self.kind = Kind::Got { number, from };
    }

    /// Bytes were heard that are no packet.
    pub fn noise(&mut self, bytes: &PacketBytes)
        ensures { self.new ≡ Some (air.Noise bytes.now) }
    {
        self.kind = Kind::Noise;
        self.noise = copy_of(bytes);
    }

    /// What it is.
    pub fn told(&self) -> FirstTold<'_>
        ensures { self.now ≡ first_told result }
    {
        match self.kind {
            Kind::Nothing => FirstTold::Nothing,
            Kind::Keep => FirstTold::Keep,
            Kind::Got { number, from } => FirstTold::Got { number, from },
            Kind::Noise => FirstTold::Noise(&self.noise),
        }
    }
}
