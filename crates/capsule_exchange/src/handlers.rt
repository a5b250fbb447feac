//! The states of all handlers, in order.

ghost use Rattle.std.specs.Prelude.{◌≡◌, ◌*◌, ◌<◌, ◌≤◌, [], length, map, is_some, IfSome, IsTrue, MatchBool, find};
ghost use Rattle.mate_num.specs.declared.bounds.TheConstants.{FRAGMENTS_MAX, HANDLERS_MAX};
ghost use Rattle.capsule_exchange.specs.Happenings.{next_place, slots_from};
ghost use Rattle.capsule_exchange.specs.Sound.{AreSound};
ghost use Rattle.capsule_exchange.specs.Marks.{HasMark, HasNoMark};
ghost use Rattle.capsule_exchange.specs.Steps.{forgets, aimed_each, asks_upto, is_marked_in, next_in};

use crate::handler_state::{Form, HandlerState};
use arrayvec::ArrayVec;
use capsule_codec::Piece;
use mate_num::{FRAGMENTS_MAX, HANDLERS_MAX, HandlerId, Image};
use packet_codec::Packet;

/// The versions that are held.
pub(crate) fn held_versions(states: &[HandlerState]) -> ArrayVec<u32, HANDLERS_MAX>
    requires { length states.now ≤ HANDLERS_MAX }
    ensures { result.items ≡ map (λ s. s.held) states.now }
{
    let mut versions: ArrayVec<u32, HANDLERS_MAX> = ArrayVec::new();
    write_held(&mut versions, states);
    versions
}

/// Appends the versions that are held.
pub(crate) fn write_held(versions: &mut ArrayVec<u32, HANDLERS_MAX>, states: &[HandlerState])
    requires few { length states.now ≤ HANDLERS_MAX }
    requires empty { versions.old.items ≡ [] }
    ensures { versions.new.items ≡ map (λ s. s.held) states.now }
{
    for state in states {
        versions.push(state.held);
    }
}

/// Each handler's version was named by a Vector.
#[inline(never)]
pub(crate) fn aim_each(states: &mut [HandlerState], versions: &[u32])
    requires { length versions.now ≡ length states.old }
    ensures { states.new ≡ aimed_each versions.now states.old }
{
    for h in 0..versions.len() {
        states[h].aim(versions[h]);
    }
}

/// Requests the versions that are greater than what is held.
#[inline(never)]
pub(crate) fn ask_each(
    states: &[HandlerState],
    versions: &[u32],
    asks: &mut ArrayVec<Packet, HANDLERS_MAX>,
)
    requires same_len { length versions.now ≡ length states.now }
    requires few { length states.now ≤ HANDLERS_MAX }
    requires sound { AreSound states.now }
    requires empty { asks.old.items ≡ [] }
    ensures { asks.new.items ≡ asks_upto versions.now states.now (length states.now) }
{
    for h in 0..versions.len() {
        let state = &states[h];
        if versions[h] > state.held {
            asks.push(state.ask(HandlerId(h as u8)));
        }
    }
}

/// What is collected and marked of each handler is dropped.
pub(crate) fn forget_each(states: &mut [HandlerState])
    ensures { states.new ≡ map forgets states.old }
{
    for state in states {
        state.forget();
    }
}

/// The slot that is sent next: the first marked one after `last`, or else the first of all. None comes exactly if
/// nothing is marked.
pub(crate) fn next_slot(states: &[HandlerState], last: Option<u8>) -> Option<usize>
    requires { length states.now ≤ HANDLERS_MAX }
    ensures value { result ≡ next_in states.now last }
    ensures marked { IfSome result (λ slot. (slot < FRAGMENTS_MAX * length states.now) × IsTrue (is_marked_in states.now slot)) }
{
    match first_marked(states, place_after(last)) {
        Some(slot) => Some(slot),
        None => first_marked(states, 0),
    }
}

// The slot at which the pump goes on.
fn place_after(last: Option<u8>) -> usize
    ensures { result ≡ next_place last }
{
    match last {
        Some(slot) => usize::from(slot) + 1,
        None => 0,
    }
}

// The first marked slot from `first` on.
fn first_marked(states: &[HandlerState], first: usize) -> Option<usize>
    requires { length states.now ≤ HANDLERS_MAX }
    ensures value { result ≡ find (is_marked_in states.now) (slots_from (length states.now) first) }
    ensures marked { IfSome result (λ slot. (slot < FRAGMENTS_MAX * length states.now) × IsTrue (is_marked_in states.now slot)) }
{
    for slot in first..FRAGMENTS_MAX * states.len() {
        if states[slot / FRAGMENTS_MAX].marks[slot % FRAGMENTS_MAX] {
            return Some(slot);
        }
    }
    None
}

/// Whether a fragment is marked.
pub(crate) fn any_marked(states: &[HandlerState]) -> bool
    ensures { result ≡ is_some (find (is_marked_in states.now) (slots_from (length states.now) 0)) }
{
    for h in 0..states.len() {
        if has_mark(&states[h].marks) {
            return true;
        }
    }
    false
}

// Whether a place is marked.
fn has_mark(marks: &[bool; FRAGMENTS_MAX]) -> bool
    ensures { MatchBool result (HasMark marks.now) (HasNoMark marks.now) }
{
    for index in 0..FRAGMENTS_MAX {
        if marks[index] {
            return true;
        }
    }
    false
}
