//! Shares of runs, and between which bounds the probability of a run lies.

ghost use Rattle.std.specs.Prelude.{◌≡◌, ◌*◌, nat_le};
ghost use Rattle.test_expectations.specs.declared.chance.TheConstants.{PARTS};

/// A share is counted in hundredths of a percent.
pub const PARTS: u32 = 10_000;

/// The most runs of a test.
pub const RUNS_MAX: u32 = 100_000;

/// What the probability of exactly as many runs as held is taken as; that of each other number is relative to it.
const UNIT: u128 = 1 << 62;

/// Whether the runs that held are at least this share of all.
pub fn is_enough(held: u32, runs: u32, share: u32) -> bool
    ensures { result ≡ nat_le (share * runs) (held * PARTS) }
{
    u64::from(share) * u64::from(runs) <= u64::from(held) * u64::from(PARTS)
}

/// The lower end of the interval of Clopper and Pearson (1934) at 95 % for a probability, of which `held` of `runs` were seen: the
/// greatest share at which so many or more have a probability of at most 2.5 %. It is rounded down. The upper end is that of the
/// runs that didn't hold, taken from the whole.
pub fn lower_bound(held: u32, runs: u32) -> u32 {
    let mut low = 0u32;
    let mut high = PARTS;
    for _ in 0..14 {
        let middle = low.saturating_add(high.saturating_sub(low) / 2);
        if low < middle && middle < high {
            if is_unlikely(held, runs, middle) {
                low = middle;
            } else {
                high = middle;
            }
        }
    }
    low
}

/// Whether `held` or more of `runs` have a probability of at most 2.5 %, if each has the probability `share`. Numbers that are kept
/// are whole parts of `UNIT`, so it may say no although it is so: if the probability is at most `runs * runs / UNIT` below 2.5 %.
fn is_unlikely(held: u32, runs: u32, share: u32) -> bool {
    if u64::from(held) * u64::from(PARTS) <= u64::from(share) * u64::from(runs) {
        return false;
    }
    let rest = PARTS.saturating_sub(share);
    let enough = tail(held, runs, share, rest).saturating_mul(39);
    let mut fewer = 0u128;
    let mut term = UNIT;
    for steps in 0..held {
        let at = held.saturating_sub(steps);
        term = scaled(
            term,
            at,
            rest,
            runs.saturating_sub(at).saturating_add(1),
            share,
        );
        fewer = fewer.saturating_add(term);
        if enough <= fewer {
            return true;
        }
    }
    false
}

/// At least the probability of `held` or more.
fn tail(held: u32, runs: u32, share: u32, rest: u32) -> u128 {
    let mut more = UNIT;
    let mut term = UNIT;
    for at in held..runs {
        term = scaled(
            term,
            runs.saturating_sub(at),
            share,
            at.saturating_add(1),
            rest,
        );
        term = term.saturating_add(1);
        more = more.saturating_add(term);
    }
    more
}

/// `term * a * b / (c * d)`, rounded down.
fn scaled(term: u128, a: u32, b: u32, c: u32, d: u32) -> u128 {
    let over = u128::from(a) * u128::from(b);
    let under = u128::from(c) * u128::from(d);
    term.saturating_mul(over).checked_div(under).unwrap_or(0)
}

/// The place, from 0, of the time that so many percent of the runs don't exceed, among the times in order: by nearest rank.
pub fn rank(runs: usize, percent: usize) -> usize {
    (runs.saturating_mul(percent).saturating_add(99) / 100).saturating_sub(1)
}
