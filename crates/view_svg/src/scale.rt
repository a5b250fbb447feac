//! The scale of a picture: from places in a report to places across it.

ghost use Rattle.std.specs.Prelude.{◌≤◌};

/// Where the plot begins, in pixels from the left.
pub const LEFT: u64 = 200;

/// How wide the plot is, in pixels.
pub const PLOT: u64 = 1_200;

/// How wide the picture is, in pixels.
pub const WIDTH: u64 = 1_440;

/// The most steps of a scale.
const STEPS: u64 = 12;

/// The places from the first to the last one, over the width of the plot.
#[derive(Clone, Copy)]
pub struct Scale {
    pub from: u64,
    pub to: u64,
}

impl Scale {
    /// How many places there are from the first to the last, at least 1.
    fn span(&self) -> u64
        ensures { 1 ≤ result }
    {
        self.to.saturating_sub(self.from).max(1)
    }

    /// Where a place is, in tenths of pixels from the left; a place outside is at the nearer end.
    pub fn tenths(&self, place: u64) -> u64 {
        let span = self.span();
        let behind = place.saturating_sub(self.from).min(span);
        let across = if span <= 1_000_000_000_000 {
            behind.saturating_mul(PLOT * 10) / span
        } else {
            (behind / (span / (PLOT * 10)).max(1)).min(PLOT * 10)
        };
        (LEFT * 10).saturating_add(across)
    }

    /// The step of the scale: 1, 2 or 5 times a power of ten, so that there are at most `STEPS` steps.
    pub fn step(&self) -> u64 {
        let span = self.span();
        let mut power = 1u64;
        for _ in 0..19u8 {
            for times in [1, 2, 5] {
                let step = power.saturating_mul(times);
                if step.saturating_mul(STEPS) >= span {
                    return step;
                }
            }
            power = power.saturating_mul(10);
        }
        power
    }
}
