//! The seats of a node's contexts.

ghost use Rattle.std.specs.Prelude.{◌≡◌, ◌<◌, ◌≤◌, ℕ, None, Some, length, slice_index_or, slice_set, max, vec_capacity, IfOk, IsSome};
ghost use Rattle.std.specs.Borrow.{sem};
ghost use Rattle.std.specs.Option.{option_copied};
ghost use Rattle.mate_num.specs.declared.bounds.TheConstants.{CONTEXTS_MAX};
ghost use Rattle.node_state.specs.Seats.{HaveSameSeats};
ghost use Rattle.node_state.specs.Lending.{lends_seat_in};

use crate::seat::Seat;
use mate_num::NoMemory;
use std::alloc::Global;
use std::marker::Model;

/// The invocation in each context, if one is there. Contracts see a list of as many places as the machine has contexts.
///
/// There is room for all of them from the start, but no place is written before an invocation comes there, or behind it.
#[derive(Drop)]
pub struct Seats {
    /// The first places. Nobody is at those behind them.
    places: Vec<Option<Seat>>,
}

impl Model for Seats {
    ghost use Rattle.std.specs.Prelude.{List, Option, length, vec_capacity};
    ghost use Rattle.node_state.specs.declared.seat.Seat.{Seat as Seated};
    ghost use Rattle.node_state.specs.Seats.{places_upto, HaveRoom};

    ghost Value = { List (Option Seated) };

    ghost view = { λ s. places_upto (vec_capacity s.places) s.places.items };

    ghost invariant = { λ s. HaveRoom (length s.places.items) (vec_capacity s.places) };
}

impl Seats {
    ghost use Rattle.node_state.specs.Lending.{lends_seat};

    /// So many seats, which are all free. No other call takes memory.
    pub fn new(alloc: Global, count: usize) -> Result<Seats, NoMemory>
        requires { count ≤ CONTEXTS_MAX }
        ensures free { IfOk result (λ seats. (k : ℕ) → slice_index_or seats k None ≡ None) }
        ensures count { IfOk result (λ seats. length seats ≡ count) }
    {
        let places = Vec::with_capacity(alloc, count)?;
        Ok(Seats { places })
    }

    /// How many places there are, `CONTEXTS_MAX` at most.
    pub fn len(&self) -> usize
        ensures count { result ≡ length self.now }
        ensures few { result ≤ CONTEXTS_MAX }
    {
        self.places.capacity()
    }

    /// The invocation at the place.
    pub fn get(&self, place: usize) -> Option<&Seat>
        ensures { option_copied result ≡ slice_index_or self.now place None }
    {
        seat_at(&self.places, place)
    }

    /// The invocation comes to the place.
    pub fn put(&mut self, place: usize, seat: Seat)
        requires { place < length self.old }
        ensures { self.new ≡ slice_set self.old place (Some seat) }
    {
        reach(&mut self.places, place + 1);
        self.places[place] = Some(seat);
    }

    /// Takes the invocation that is at the place, if one is there.
    pub fn take(&mut self, place: usize) -> Option<Seat>
        ensures seat { result ≡ slice_index_or self.old place None }
        ensures rest { self.new ≡ slice_set self.old place None }
    {
        take_at(&mut self.places, place)
    }

    /// The invocation that is at the place, to be changed where it is.
    pub fn at_mut(&mut self, place: usize) -> &mut Seat
        requires { IsSome (slice_index_or self.old place None) }
        ensures* writes_back { sem 𝓛 (lends_seat self.entry place result) }
        ensures seat { slice_index_or self.old place None ≡ Some result.now }
    {
        seat_in(&mut self.places[place])
    }

    /// Takes all invocations.
    pub fn clear(&mut self)
        ensures free { (k : ℕ) → slice_index_or self.new k None ≡ None }
        ensures count { length self.new ≡ length self.old }
    {
        self.places.clear();
    }
}

/// Makes free places behind the others, until there are so many. It takes no memory.
fn reach(places: &mut Vec<Option<Seat>>, count: usize)
    requires { count ≤ vec_capacity places.old }
    ensures same { HaveSameSeats places.old.items places.new.items }
    ensures reached { count ≤ length places.new.items }
    ensures few { length places.new.items ≤ max count (length places.old.items) }
    ensures capacity { vec_capacity places.new ≡ vec_capacity places.old }
{
    while places.len() < count {
        places.push_reserved(None);
    }
}

/// The invocation at the place.
fn seat_at(places: &Vec<Option<Seat>>, place: usize) -> Option<&Seat>
    ensures { option_copied result ≡ slice_index_or places.now.items place None }
{
    match places.get(place) {
        Some(seat) => seat.as_ref(),
        None => None,
    }
}

/// The invocation that is there.
fn seat_in(place: &mut Option<Seat>) -> &mut Seat
    requires { IsSome place.old }
    ensures* writes_back { sem 𝓛 (lends_seat_in place.entry result) }
    ensures seat { place.old ≡ Some result.now }
{
    match place {
        Some(seat) => seat,
        None => unreachable!(),
    }
}

/// Takes the invocation that is at the place, if one is there.
fn take_at(places: &mut Vec<Option<Seat>>, place: usize) -> Option<Seat>
    ensures seat { result ≡ slice_index_or places.old.items place None }
    ensures rest { places.new.items ≡ slice_set places.old.items place None }
    ensures capacity { vec_capacity places.new ≡ vec_capacity places.old }
{
    if place < places.len() {
        places[place].take()
    } else {
        None
    }
}
