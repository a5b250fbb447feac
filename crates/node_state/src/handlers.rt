//! What is installed for each handler.

ghost use Rattle.std.specs.Prelude.{◌≡◌, ◌<◌, ◌≤◌, Some, None, length, slice_index_or, slice_set, max, vec_len, vec_capacity, IfOk, OnOk};
ghost use Rattle.std.specs.Option.{option_copied};
ghost use Rattle.mate_num.specs.declared.bounds.TheConstants.{IMAGE_MAX};
ghost use Rattle.mate_num.specs.declared.id.HandlerId.{HandlerId as Handler};
ghost use Rattle.node_state.specs.Programs.{HaveSame, renewed, written_over};

use crate::shared::SharedHeld;
use code_verifier::Verified;
use mate_num::{HandlerId, Image, LockSet, NoMemory};
use std::alloc::Global;
use std::marker::Model;

/// A program as it is installed: its version and image, its verified code, and the locks that it takes.
#[derive(Drop)]
pub struct Held {
    pub version: u32,
    pub image: Image,
    pub code: Verified,
    pub locks: LockSet,
}

/// The program of each handler. Contracts see the list of them, and for how many handlers, from the first on, there is room for a
/// program of the node's own.
///
/// A program is one of the node's own, or one that nodes share. Programs are large, so they are on the heap: 7.5 KB each. Room for
/// those of the node's own comes by `make_room` alone, so that an install takes no memory, and a node that installs what nodes
/// share needs none. No place of it is written before a program comes there, or behind it.
#[derive(Drop)]
pub struct Handlers {
    own: Vec<Option<Held>>,
    /// What is shared, at each handler that has no program of its own.
    shared: Vec<Option<SharedHeld>>,
}

impl Model for Handlers {
    ghost use Rattle.std.specs.Prelude.{length, vec_capacity};
    ghost use Rattle.node_state.specs.Programs.{HeldPrograms, HavePlaces, held_either};

    ghost Value = { HeldPrograms };

    ghost view = { λ h. record { programs = held_either h.own.items h.shared.items; room = vec_capacity h.own } };

    ghost invariant = { λ h. HavePlaces (length h.own.items) (length h.shared.items) };
}

/// The node's own program at the place.
fn own_at(own: &Vec<Option<Held>>, place: usize) -> Option<&Held>
    ensures { option_copied result ≡ slice_index_or own.now.items place None }
{
    match own.get(place) {
        Some(held) => held.as_ref(),
        None => None,
    }
}

/// The shared program at the place.
fn shared_at(shared: &Vec<Option<SharedHeld>>, place: usize) -> Option<&Held>
    ensures { option_copied result ≡ slice_index_or shared.now.items place None }
{
    match shared.get(place) {
        Some(Some(held)) => Some(held.as_held()),
        Some(None) => None,
        None => None,
    }
}

impl Handlers {
    ghost use Rattle.node_state.specs.Programs.{HasOwnRoom, held_at, held_version_in};

    /// Places for this number of handlers, with nothing installed, and room for no program of the node's own.
    pub fn new(alloc: Global, count: usize) -> Result<Handlers, NoMemory>
        ensures none { IfOk result (λ handlers. (h : Handler) → held_at handlers.programs h ≡ None) }
        ensures places { IfOk result (λ handlers. length handlers.programs ≡ count) }
    {
        let mut shared = Vec::with_capacity(alloc, count)?;
        for _place in 0..count {
            shared.push(None)?;
        }
        Ok(Handlers {
            own: Vec::new(alloc),
            shared,
        })
    }

    /// Makes room for a program of the node's own for each handler. `NoMemory` leaves what is installed as it was. No other call
    /// but `new` takes memory.
    pub fn make_room(&mut self) -> Result<(), NoMemory>
        ensures same { self.new.programs ≡ self.old.programs }
        ensures room { OnOk result (HasOwnRoom self.new) }
        ensures more { self.old.room ≤ self.new.room }
    {
        self.own.reserve(self.shared.len() - self.own.len())?;
        Ok(())
    }

    /// What is installed for the handler; None also for a number of no handler.
    pub fn get(&self, handler: HandlerId) -> Option<&Held>
        ensures { option_copied result ≡ held_at self.now.programs handler }
    {
        let place = usize::from(handler.0);
        match own_at(&self.own, place) {
            Some(held) => Some(held),
            None => shared_at(&self.shared, place),
        }
    }

    /// Whether the handler's program is one of the node's own. It is a matter of speed alone: such a program can be changed in place.
    pub fn is_own(&self, handler: HandlerId) -> bool {
        own_at(&self.own, usize::from(handler.0)).is_some()
    }

    /// Installs the program in place of the one that was.
    pub fn install(&mut self, handler: HandlerId, held: Held)
        requires handler { handler.0 < length self.old.programs }
        requires room { handler.0 < self.old.room }
        ensures { self.new ≡ record self.old { programs = slice_set self.old.programs handler.0 (Some held) } }
    {
        let place = usize::from(handler.0);
        reach(&mut self.own, place + 1);
        self.own[place] = Some(held);
        self.shared[place] = None;
    }

    /// Installs the shared program in place of the one that was.
    pub fn share(&mut self, handler: HandlerId, program: SharedHeld)
        requires { handler.0 < length self.old.programs }
        ensures { self.new ≡ record self.old { programs = slice_set self.old.programs handler.0 (Some program) } }
    {
        let place = usize::from(handler.0);
        leave(&mut self.own, place);
        self.shared[place] = Some(program);
    }

    /// Gives what is installed for the handler, if anything is, this version and the image of these bytes. Its code and its locks
    /// stay.
    pub fn renew(&mut self, handler: HandlerId, version: u32, image: &[u8])
        requires handler { handler.0 < length self.old.programs }
        requires room { handler.0 < self.old.room }
        requires fits { length image.now ≤ IMAGE_MAX }
        ensures { self.new ≡ record self.old {
          programs = slice_set self.old.programs handler.0
              (renewed version (record { items = image.now }) (held_at self.old.programs handler));
        } }
    {
        let place = usize::from(handler.0);
        match own_at(&self.own, place) {
            Some(_) => renew_own(&mut self.own, place, version, image),
            None => self.renew_shared(handler, version, image),
        }
    }

    /// Does so by a copy: other nodes hold the program as it is.
    #[inline(never)]
    fn renew_shared(&mut self, handler: HandlerId, version: u32, image: &[u8])
        requires handler { handler.0 < length self.old.programs }
        requires room { handler.0 < self.old.room }
        requires fits { length image.now ≤ IMAGE_MAX }
        ensures { self.new ≡ record self.old {
          programs = slice_set self.old.programs handler.0
              (renewed version (record { items = image.now }) (held_at self.old.programs handler));
        } }
    {
        if let Some(held) = self.get(handler) {
            let held = renewed_copy(held, version, image);
            self.install(handler, held);
        }
    }

    /// Installs a copy of the program in place of the one that was, with this version and the image of these bytes. If that one is
    /// the node's own, the copy is written over it, and no more than it has.
    pub fn install_copy(&mut self, handler: HandlerId, held: &Held, version: u32, image: &[u8])
        requires handler { handler.0 < length self.old.programs }
        requires room { handler.0 < self.old.room }
        requires fits { length image.now ≤ IMAGE_MAX }
        ensures { self.new ≡ record self.old {
          programs = slice_set self.old.programs handler.0
              (Some (record held.now { version = version; image = record { items = image.now } }));
        } }
    {
        let place = usize::from(handler.0);
        match own_at(&self.own, place) {
            Some(_) => copy_own(&mut self.own, place, held, version, image),
            None => self.install(handler, renewed_copy(held, version, image)),
        }
    }

    /// The version that is installed for the handler, 0 for none.
    pub fn version(&self, handler: HandlerId) -> u32
        ensures { result ≡ held_version_in (held_at self.now.programs handler) }
    {
        match self.get(handler) {
            Some(held) => held.version,
            None => 0,
        }
    }
}

/// The image of these bytes. It takes no memory.
fn image_of(bytes: &[u8]) -> Image
    requires { length bytes.now ≤ IMAGE_MAX }
    ensures { result ≡ record { items = bytes.now } }
{
    let Ok(image) = Image::try_from(bytes) else {
        unreachable!()
    };
    image
}

/// A copy of the program, with this version and the image of these bytes.
fn renewed_copy(held: &Held, version: u32, image: &[u8]) -> Held
    requires { length image.now ≤ IMAGE_MAX }
    ensures { result ≡ record held.now { version = version; image = record { items = image.now } } }
{
    Held {
        version,
        image: image_of(image),
        code: held.code.copy(),
        locks: held.locks,
    }
}

/// Writes the bytes in place of the image. It writes no more than their length, and not all the room that an image has.
fn write_image(image: &mut Image, bytes: &[u8])
    requires { length bytes.now ≤ IMAGE_MAX }
    ensures { image.new ≡ record { items = bytes.now } }
{
    image.clear();
    let Ok(()) = image.try_extend_from_slice(bytes) else {
        unreachable!()
    };
}

/// Gives the program at the place, if one is there, this version and the image of these bytes.
fn renew_own(own: &mut Vec<Option<Held>>, place: usize, version: u32, image: &[u8])
    requires place { place < vec_len own.old }
    requires fits { length image.now ≤ IMAGE_MAX }
    ensures items { own.new.items ≡ slice_set own.old.items place
        (renewed version (record { items = image.now }) (slice_index_or own.old.items place None)) }
    ensures capacity { vec_capacity own.new ≡ vec_capacity own.old }
{
    if let Some(held) = &mut own[place] {
        held.version = version;
        write_image(&mut held.image, image);
    }
}

/// Writes a copy of another program over this one, with this version and the image of these bytes.
fn write_copy(own: &mut Held, held: &Held, version: u32, image: &[u8])
    requires { length image.now ≤ IMAGE_MAX }
    ensures { own.new ≡ record held.now { version = version; image = record { items = image.now } } }
{
    own.version = version;
    write_image(&mut own.image, image);
    own.code.copy_from(&held.code);
    own.locks = held.locks;
}

/// Does so at the place, if a program is there.
fn copy_own(own: &mut Vec<Option<Held>>, place: usize, held: &Held, version: u32, image: &[u8])
    requires place { place < vec_len own.old }
    requires fits { length image.now ≤ IMAGE_MAX }
    ensures items { own.new.items ≡ slice_set own.old.items place
        (written_over (record held.now { version = version; image = record { items = image.now } })
        (slice_index_or own.old.items place None)) }
    ensures capacity { vec_capacity own.new ≡ vec_capacity own.old }
{
    if let Some(own) = &mut own[place] {
        write_copy(own, held, version, image);
    }
}

/// Makes places without a program behind the others, until there are so many. It takes no memory.
fn reach(own: &mut Vec<Option<Held>>, count: usize)
    requires { count ≤ vec_capacity own.old }
    ensures same { HaveSame own.old.items own.new.items }
    ensures reached { count ≤ length own.new.items }
    ensures few { length own.new.items ≤ max count (length own.old.items) }
    ensures capacity { vec_capacity own.new ≡ vec_capacity own.old }
{
    while own.len() < count {
        own.push_reserved(None);
    }
}

/// The place has no program, if it is there.
fn leave(own: &mut Vec<Option<Held>>, place: usize)
    ensures items { own.new.items ≡ slice_set own.old.items place None }
    ensures capacity { vec_capacity own.new ≡ vec_capacity own.old }
{
    if place < own.len() {
        own[place] = None;
    }
}
