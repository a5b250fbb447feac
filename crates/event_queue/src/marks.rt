//! Marks of the near slots, a bit for each, so that the next slot where something may wait is found without a look at those
//! between.

ghost use Rattle.std.specs.Prelude.{◌≡◌, ◌≢◌, ◌-◌, ◌<◌, ◌≤◌, ℕ};
ghost use Rattle.std.specs.Int.{bit_at};
ghost use Rattle.event_queue.specs.Marks.{mark_at};
ghost use Rattle.event_queue.specs.declared.marks.TheConstants.{BITS};

/// How many slots a word has marks for.
const BITS: u32 = 64;

/// How many words there are.
const WORDS: usize = 32;

/// Which near slots are marked.
#[derive(Drop)]
pub struct Marks {
    words: [u64; WORDS],
}

/// The place of the lowest bit that is set.
fn lowest(bits: u64) -> u32
    requires { 0 < bits }
    ensures within { result < BITS }
    ensures set { bit_at bits result ≡ 1 }
    ensures first { (i : ℕ) → i < result → bit_at bits i ≡ 0 }
{
    bits.trailing_zeros()
}

impl Marks {
    /// No slot is marked.
    pub fn new() -> Marks
        ensures { (slot : ℕ) → mark_at result slot ≡ 0 }
    {
        Marks { words: [0; WORDS] }
    }

    /// Marks a slot.
    pub fn set(&mut self, slot: u32)
        requires { slot < 2048 }
        ensures set { mark_at self.new slot ≡ 1 }
        ensures others { (s : ℕ) → s ≢ slot → mark_at self.new s ≡ mark_at self.old s }
    {
        self.words[(slot / BITS) as usize] |= 1 << (slot % BITS);
    }

    /// Marks the slot of a near list. The other lists have no mark.
    pub fn set_list(&mut self, list: usize)
        requires { 0 < list }
        ensures set { list ≤ 2048 → mark_at self.new (list - 1) ≡ 1 }
        ensures others { (s : ℕ) → mark_at self.new s ≡ 0 → mark_at self.old s ≡ 0 }
    {
        if list <= 2048 {
            self.set(list as u32 - 1);
        }
    }

    /// Takes a slot's mark.
    pub fn clear(&mut self, slot: u32)
        requires { slot < 2048 }
        ensures { (s : ℕ) → s ≢ slot → mark_at self.new s ≡ mark_at self.old s }
    {
        self.words[(slot / BITS) as usize] &= !(1 << (slot % BITS));
    }

    /// The next marked slot after one, or 2,048 where there is none.
    pub fn next(&self, slot: u32) -> u32
        requires { slot < 2048 }
        ensures after { slot < result }
        ensures within { result ≤ 2048 }
        ensures between { (s : ℕ) → slot < s → s < result → mark_at self.now s ≡ 0 }
    {
        let above = self.words[(slot / BITS) as usize] >> (slot % BITS) >> 1;
        if above != 0 {
            return slot + 1 + lowest(above);
        }
        for word in slot / BITS + 1..WORDS as u32 {
            let bits = self.words[word as usize];
            if bits != 0 {
                return word * BITS + lowest(bits);
            }
        }
        WORDS as u32 * BITS
    }
}
