//! The settings of the Trickle timer and of the radio.

ghost use Rattle.std.specs.Prelude.{◌≡◌, ◌≤◌, ◌*◌, ◌^◌, IsTrue};
ghost use Rattle.mate_num.specs.declared.bounds.TheConstants.{HOUR};
ghost use Rattle.vm_shape.specs.declared.settings.TheConstants.{DOUBLINGS_MAX};

/// How often the shortest interval of a Trickle timer doubles at most.
pub const DOUBLINGS_MAX: u32 = 16;

/// The settings of a handler's Trickle timer.
#[derive(Clone, Copy)]
pub struct TrickleSet {
    /// The shortest interval, in ms: even, from 2 to 60,000.
    pub imin: u32,
    /// How often the shortest interval doubles before it stays, up to `DOUBLINGS_MAX`: the longest interval has
    /// `imin * 2^doublings` ms, at most `HOUR`.
    pub doublings: u8,
    /// How many consistent packets received in an interval keep a node silent: 1 to 255.
    pub k: u8,
}

/// The settings of the radio.
#[derive(Clone, Copy)]
pub struct RadioSet {
    /// The time from a packet's sending to its arrival, in ms: 1 to 10,000.
    pub delay: u32,
    /// The time between two packets that a node sends, in ms: 1 to 10,000.
    pub gap: u32,
}

impl TrickleSet {
    ghost use Rattle.vm_shape.specs.Limits.{longest, is_trickle};

    /// The longest interval, in ms: `imin`, doubled `doublings` times.
    pub fn longest(&self) -> u32
        requires { IsTrue (is_trickle self.now) }
        ensures value { result ≡ longest self.now }
        ensures most { result ≤ HOUR }
    {
        doubled(self.imin, u32::from(self.doublings))
    }
}

/// `imin`, doubled `doublings` times: the longest interval of settings that have them.
pub fn doubled(imin: u32, doublings: u32) -> u32
    requires imin { imin ≤ 60000 }
    requires doublings { doublings ≤ DOUBLINGS_MAX }
    ensures { result ≡ imin * 2 ^ doublings }
{
    imin << doublings
}
