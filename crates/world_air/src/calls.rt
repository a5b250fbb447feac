//! The calls of a node's scripts.

ghost use Rattle.std.specs.Prelude.{◌≡◌, ◌+◌, ◌<◌, ◌≤◌, ℕ, [], ◌∷◌, ◌++◌, List, length, min, All, IfOk, slice_index, slice_set};
ghost use Rattle.mate_num.specs.declared.bounds.TheConstants.{HOUR};
ghost use Rattle.mate_num.specs.declared.id.FunId.{FunId as FunName};
ghost use Rattle.rand_pcg.specs.Pcg.{pcg32};
ghost use Rattle.world_rules.specs.World.{World, series_in};
ghost use Rattle.world_rules.specs.State.{series_value};

use mate_num::{FunId, NoMemory};
use rand_core::utils::NextWord;
use rand_pcg::Lcg64Xsh32;
use script_steps::Series;
use std::alloc::Global;
use std::marker::Model;
use vm_shape::{Description, FunKind};

/// How often each function of a machine was called, as far as 64 bits count.
#[derive(Drop)]
pub struct Counts {
    list: Vec<u64>,
}

impl Model for Counts {
    ghost use Rattle.world_air.specs.Counts.{CountList};

    ghost Value = { CountList };

    ghost view = { λ c. record { items = c.list.items } };
}

impl Counts {
    /// No call of any of so many functions. It takes memory for so many.
    fn none(alloc: Global, functions: usize) -> Result<Counts, NoMemory>
        ensures count { IfOk result (λ counts. length counts.items ≡ functions) }
        ensures none { IfOk result (λ counts. All (λ n. n ≡ 0) counts.items) }
    {
        let mut list = Vec::with_capacity(alloc, functions)?;
        for _ in 0..functions {
            list.push(0)?;
        }
        Ok(Counts { list })
    }

    /// Counts a call of the function: how many calls of it were counted before.
    fn count(&mut self, fun: FunId) -> u64
        requires { fun.0 < length self.old.items }
        ensures before { result ≡ slice_index self.old.items fun.0 }
        ensures after { self.new ≡ record {
          items = slice_set self.old.items fun.0 (min (slice_index self.old.items fun.0 + 1) u64.MAX);
        } }
    {
        let count = &mut self.list[usize::from(fun.0)];
        let before = *count;
        *count = before.saturating_add(1);
        before
    }
}

/// What the scripts of a node called so far.
#[derive(Drop)]
pub struct Calls {
    /// How often each function was called.
    pub counts: Counts,
    /// The random words that are left to the node.
    pub words: Lcg64Xsh32,
}

/// The answer to a call.
#[derive(Clone, Copy)]
pub struct CallAnswer {
    /// When it comes, in ms.
    pub time: u32,
    pub value: i16,
}

impl Calls {
    ghost use Rattle.world_air.specs.Calls.{AreCallsOf, HasSensors, call_answer, value_by, words_past};

    /// Nothing was called.
    pub fn new(alloc: Global, desc: &Description, random: u64, node: u8) -> Result<Calls, NoMemory>
        ensures { IfOk result (λ calls. (w : World) → w.description ≡ desc.now → w.random ≡ random → AreCallsOf w node [] calls) }
    {
        Ok(Calls {
            counts: Counts::none(alloc, desc.functions.len())?,
            words: Lcg64Xsh32::new(random, 2 * u64::from(node) + 1),
        })
    }

    /// The function is called once more, now: the answer to this call.
    pub fn answer(
        &mut self,
        desc: &Description,
        series: &[Series],
        node: u8,
        fun: FunId,
        now: u32,
    ) -> CallAnswer
        requires fun { fun.0 < length desc.now.functions.items }
        requires counts { length self.old.counts.items ≡ length desc.now.functions.items }
        requires hour { now ≤ HOUR }
        ensures value { (w : World) (called : List FunName) → HasSensors w desc.now series.now → AreCallsOf w node called self.old
            → result ≡ call_answer w node called fun now }
        ensures calls { (w : World) (called : List FunName) → HasSensors w desc.now series.now → AreCallsOf w node called self.old
            → AreCallsOf w node (called ++ fun ∷ []) self.new }
        ensures counts { length self.new.counts.items ≡ length self.old.counts.items }
        ensures later { now ≤ result.time }
    {
        let function = &desc.functions.as_slice()[usize::from(fun.0)];
        let time = now + function.latency;
        let place = self.count(fun);
        let value = self.value(function.kind, series, node, fun, place, time);
        CallAnswer { time, value }
    }

    /// The value of an answer at its time, if `place` calls of the function were counted before.
    fn value(
        &mut self,
        kind: FunKind,
        series: &[Series],
        node: u8,
        fun: FunId,
        place: u64,
        time: u32,
    ) -> i16
        ensures value { (n : ℕ) → place ≡ min n u64.MAX
            → result ≡ value_by (series_in series.now node fun.0) n node (pcg32 self.old.words).0 time kind }
        ensures words { self.new ≡ record self.old { words = words_past kind self.old.words } }
    {
        match kind {
            FunKind::Sense => series_value(series, node, fun, place),
            FunKind::Act { .. } => 0,
            FunKind::Send => 1,
            FunKind::Id => i16::from(node),
            FunKind::Rand => (self.words.next_word() % 32768) as i16,
            FunKind::Clock => (time / 1000 % 32768) as i16,
        }
    }

    /// Counts a call of the function: how many calls of it were counted before.
    fn count(&mut self, fun: FunId) -> u64
        requires { fun.0 < length self.old.counts.items }
        ensures before { result ≡ slice_index self.old.counts.items fun.0 }
        ensures after { self.new ≡ record self.old {
          counts = record {
            items = slice_set self.old.counts.items fun.0 (min (slice_index self.old.counts.items fun.0 + 1) u64.MAX);
          };
        } }
    {
        self.counts.count(fun)
    }
}

/// The value at a place of the node's series for the function. The last value goes on; without a series it is 0.
fn series_value(series: &[Series], node: u8, fun: FunId, place: u64) -> i16
    ensures { (n : ℕ) → place ≡ min n u64.MAX → result ≡ series_value (series_in series.now node fun.0) n }
{
    for one in series {
        if one.node == node && one.fun.0 == fun.0 {
            return value_at(one.values.as_slice(), place);
        }
    }
    0
}

/// The value at a place, the last one behind all; 0 if there is none.
fn value_at(values: &[i16], place: u64) -> i16
    ensures { (n : ℕ) → place ≡ min n u64.MAX → result ≡ series_value values.now n }
{
    if values.is_empty() {
        return 0;
    }
    let last = values.len() - 1;
    if place < last as u64 {
        values[place as usize]
    } else {
        values[last]
    }
}
