//! Lists of places that are kept as links between them, each place in one list: a place goes from one list to another
//! without memory.

ghost use Rattle.std.specs.Prelude.{◌≡◌, ◌≢◌, ◌+◌, ◌^◌, ◌<◌, ℕ, [], ◌∷◌, length, slice_get, IfSome, IfOk, IsTrue, MatchResult};
ghost use Rattle.std.specs.List.{sum_by};
ghost use Rattle.event_queue.specs.Links.{IsLinked, AreLinks, head_of, place_at, lengths, list_at, seen_places, Unlinks, LinksLast, MovesFirst, MakesRoom};

use mate_num::NoMemory;
use std::alloc::Global;
use std::marker::Model;

/// Where a list begins and ends, and how many places it has. The ends of an empty list say nothing.
#[derive(Clone, Copy)]
pub struct Head {
    pub first: u32,
    pub last: u32,
    pub len: u32,
}

/// The head of an empty list.
const EMPTY: Head = Head {
    first: 0,
    last: 0,
    len: 0,
};

/// The lists, by number. `next` has, for each place, the one after it in its list.
#[derive(Drop)]
pub struct Chains {
    next: Vec<u32>,
    heads: Vec<Head>,
}

impl Model for Chains {
    ghost use Rattle.event_queue.specs.Links.{Places, AreLinks, seen_places};

    ghost Value = { Places };

    ghost view = { λ c. seen_places c.next.items c.heads.items };

    ghost invariant = { λ c. AreLinks c.next.items c.heads.items };
}

/// Takes out the first place of a list.
fn unlink(next: &Vec<u32>, heads: &mut Vec<Head>, list: usize) -> u32
    requires linked { IsLinked next.now.items heads.old.items }
    requires within { list < length heads.old.items }
    requires some { 0 < (head_of heads.old.items list).len }
    ensures { Unlinks next.now.items heads.old.items heads.new.items list result }
{
    let head = heads[list];
    heads[list] = Head {
        first: next[head.first as usize],
        last: head.last,
        len: head.len - 1,
    };
    head.first
}

/// Puts a place that is in no list last into one.
fn append(next: &mut Vec<u32>, heads: &mut Vec<Head>, list: usize, place: u32)
    requires linked { IsLinked next.old.items heads.old.items }
    requires within { list < length heads.old.items }
    requires below { place < length next.old.items }
    requires alone { (s p : ℕ) → p < (head_of heads.old.items s).len → place_at next.old.items heads.old.items s p ≢ place }
    requires room { lengths heads.old.items + 1 < 2 ^ 32 }
    ensures { LinksLast next.old.items heads.old.items next.new.items heads.new.items list place }
{
    let end = heads[list];
    if end.len == 0 {
        heads[list] = Head {
            first: place,
            last: place,
            len: 1,
        };
        return;
    }
    next[end.last as usize] = place;
    heads[list] = Head {
        first: end.first,
        last: place,
        len: end.len + 1,
    };
}

impl Chains {
    /// So many lists, all empty, and no place.
    pub fn new(alloc: Global, lists: usize) -> Result<Chains, NoMemory>
        ensures lists { IfOk result (λ c. length c.lists ≡ lists) }
        ensures none { IfOk result (λ c. c.total ≡ 0) }
        ensures empty { IfOk result (λ c. (s : ℕ) → list_at c s ≡ []) }
    {
        let heads = vec![in alloc; EMPTY; lists]?;
        Ok(Chains {
            next: Vec::new(alloc),
            heads,
        })
    }

    /// How many places there are, in all lists.
    pub fn total(&self) -> usize
        ensures { result ≡ self.now.total }
    {
        self.next.len()
    }

    /// Whether the list has all places, so that the others have none.
    pub fn has_all(&self, list: usize) -> bool
        requires { list < length self.now.lists }
        ensures { IsTrue result → (s : ℕ) → s ≢ list → list_at self.now s ≡ [] }
    {
        self.heads[list].len as usize == self.next.len()
    }

    /// The first place of a list, if it has one.
    pub fn first(&self, list: usize) -> Option<u32>
        requires { list < length self.now.lists }
        ensures value { result ≡ slice_get (list_at self.now list) 0 }
        ensures below { IfSome result (λ place. place < self.now.total) }
    {
        let head = self.heads[list];
        if head.len == 0 {
            return None;
        }
        Some(head.first)
    }

    /// Makes a new place, the total so far, in an empty list. It is refused where there is no memory, or where there
    /// are 4,294,967,294 places.
    pub fn grow(&mut self, list: usize) -> Result<(), NoMemory>
        requires { list < length self.old.lists }
        ensures { MatchResult result (λ _. MakesRoom self.old self.new list) (λ _. self.new ≡ self.old) }
    {
        if self.next.len() >= (u32::MAX - 1) as usize {
            return Err(NoMemory);
        }
        let place = self.next.len() as u32;
        self.next.push(0)?;
        append(&mut self.next, &mut self.heads, list, place);
        Ok(())
    }

    /// Moves the first place of a list to the end of another one.
    pub fn move_first(&mut self, from: usize, to: usize) -> u32
        requires from { from < length self.old.lists }
        requires to { to < length self.old.lists }
        requires apart { from ≢ to }
        requires some { list_at self.old from ≢ [] }
        ensures { MovesFirst self.old self.new from to result }
    {
        let place = unlink(&self.next, &mut self.heads, from);
        append(&mut self.next, &mut self.heads, to, place);
        place
    }
}
