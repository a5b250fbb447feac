//! A node's log: its entries, with the images and stores that they name.

ghost use Rattle.std.specs.Prelude.{◌≡◌, ◌≤◌, ◌<◌, ◌+◌, ◌∷◌, ◌++◌, [], length, take, OnOk};
ghost use Rattle.mate_journal.specs.Log.{Log, IsSameLog};
ghost use Rattle.mate_journal.specs.declared.entry.Entry.TheVariants as told;

use crate::entry::{Entry, Stamped};
use mate_num::{HandlerId, Image, NoMemory, Stamp, Store};
use std::alloc::Global;
use std::marker::Model;
use std::mem;

/// What happened on one node, in order. After a `reserve` it is written without memory.
pub struct NodeLog {
    entries: Vec<Stamped>,
    images: Vec<Image>,
    stores: Vec<Store>,
}

impl Drop for NodeLog {
    fn drop(self) {
        let NodeLog {
            entries: _entries,
            images: _images,
            stores: _stores,
        } = self;
    }
}

impl Model for NodeLog {
    ghost use Rattle.std.specs.Prelude.{◌-◌, min, vec_len, vec_capacity};
    ghost use Rattle.mate_journal.specs.Log.{Log};

    ghost Value = { Log };

    ghost view = { λ l. record {
      entries = l.entries.items;
      images = l.images.items;
      stores = l.stores.items;
      spare = min (vec_capacity l.entries - vec_len l.entries)
          (min (vec_capacity l.images - vec_len l.images) (vec_capacity l.stores - vec_len l.stores));
    } };
}

/// A copy of an image. It takes no memory.
fn copy_of(image: &Image) -> Image
    ensures { result ≡ image.now }
{
    let Ok(copy) = Image::try_from(image.as_slice()) else {
        unreachable!()
    };
    copy
}

impl NodeLog {
    /// The empty log. It takes no memory.
    pub fn new(alloc: Global) -> NodeLog
        ensures entries { result.entries ≡ [] }
        ensures images { result.images ≡ [] }
        ensures stores { result.stores ≡ [] }
    {
        NodeLog {
            entries: Vec::new(alloc),
            images: Vec::new(alloc),
            stores: Vec::new(alloc),
        }
    }

    /// The entries, in the order in which they were made.
    pub fn entries(&self) -> &[Stamped]
        ensures { result.now ≡ self.now.entries }
    {
        self.entries.as_slice()
    }

    /// The images that were installed.
    pub fn images(&self) -> &[Image]
        ensures { result.now ≡ self.now.images }
    {
        self.images.as_slice()
    }

    /// The stores that were seen.
    pub fn stores(&self) -> &[Store]
        ensures { result.now ≡ self.now.stores }
    {
        self.stores.as_slice()
    }

    /// How many more items each of the three lists takes without memory.
    pub fn spare(&self) -> usize
        ensures { result ≡ self.now.spare }
    {
        let entries = self.entries.capacity() - self.entries.len();
        let images = self.images.capacity() - self.images.len();
        let stores = self.stores.capacity() - self.stores.len();
        entries.min(images.min(stores))
    }

    /// Makes room for `n` more items in each list. `NoMemory` leaves the three lists as they were.
    pub fn reserve(&mut self, n: usize) -> Result<(), NoMemory>
        ensures same { IsSameLog self.new self.old }
        ensures kept { self.old.spare ≤ self.new.spare }
        ensures room { OnOk result (n ≤ self.new.spare) }
    {
        self.entries.reserve(n)?;
        self.images.reserve(n)?;
        self.stores.reserve(n)?;
        Ok(())
    }

    /// Appends an entry.
    pub fn push(&mut self, stamped: Stamped)
        requires { 1 ≤ self.old.spare }
        ensures entries { self.new.entries ≡ self.old.entries ++ stamped ∷ [] }
        ensures images { self.new.images ≡ self.old.images }
        ensures stores { self.new.stores ≡ self.old.stores }
        ensures spare { self.old.spare ≤ self.new.spare + 1 }
    {
        self.entries.push_reserved(stamped);
    }

    /// Appends a copy of an image, and answers its position.
    pub fn add_image(&mut self, image: &Image) -> u32
        requires room { 1 ≤ self.old.spare }
        requires count { length self.old.images < 4100000000 }
        ensures position { result ≡ length self.old.images }
        ensures entries { self.new.entries ≡ self.old.entries }
        ensures images { self.new.images ≡ self.old.images ++ image.now ∷ [] }
        ensures stores { self.new.stores ≡ self.old.stores }
        ensures spare { self.old.spare ≤ self.new.spare + 1 }
    {
        let position = self.images.len() as u32;
        self.images.push_reserved(copy_of(image));
        position
    }

    /// Appends a copy of a store, and answers its position.
    pub fn add_store(&mut self, store: &Store) -> u32
        requires room { 1 ≤ self.old.spare }
        requires count { length self.old.stores < 4100000000 }
        ensures position { result ≡ length self.old.stores }
        ensures entries { self.new.entries ≡ self.old.entries }
        ensures images { self.new.images ≡ self.old.images }
        ensures stores { self.new.stores ≡ self.old.stores ++ store.now ∷ [] }
        ensures spare { self.old.spare ≤ self.new.spare + 1 }
    {
        let position = self.stores.len() as u32;
        self.stores.push_reserved(store.copy());
        position
    }

    /// Appends a store and the entry that shows it. Both take one of the room together.
    pub fn push_seen(&mut self, at: Stamp, store: Store)
        requires room { 1 ≤ self.old.spare }
        requires count { length self.old.stores < 4100000000 }
        ensures entries { self.new.entries ≡ self.old.entries ++ record { stamp = at; entry = told.Seen (length self.old.stores) } ∷ [] }
        ensures images { self.new.images ≡ self.old.images }
        ensures stores { self.new.stores ≡ self.old.stores ++ store ∷ [] }
        ensures spare { self.old.spare ≤ self.new.spare + 1 }
    {
        let number = self.stores.len() as u32;
        self.stores.push_reserved(store);
        self.entries.push_reserved(Stamped {
            stamp: at,
            entry: Entry::Seen { store: number },
        });
    }

    /// Appends a copy of an image and the entry that installs it. Both take one of the room together.
    pub fn push_install(&mut self, at: Stamp, handler: HandlerId, version: u32, image: &Image)
        requires room { 1 ≤ self.old.spare }
        requires count { length self.old.images < 4100000000 }
        ensures entries { self.new.entries ≡ self.old.entries
            ++ record { stamp = at; entry = told.Install handler version (length self.old.images) } ∷ [] }
        ensures images { self.new.images ≡ self.old.images ++ image.now ∷ [] }
        ensures stores { self.new.stores ≡ self.old.stores }
        ensures spare { self.old.spare ≤ self.new.spare + 1 }
    {
        let number = self.images.len() as u32;
        self.images.push_reserved(copy_of(image));
        self.entries.push_reserved(Stamped {
            stamp: at,
            entry: Entry::Install {
                handler,
                version,
                image: number,
            },
        });
    }

    /// Takes the lists of the other log, with their room, and leaves that one its own.
    pub fn trade(&mut self, other: &mut NodeLog)
        ensures here { self.new ≡ other.old }
        ensures there { other.new ≡ self.old }
    {
        // (list by list: a whole log is too long to be moved at once)
        mem::swap(&mut self.entries, &mut other.entries);
        mem::swap(&mut self.images, &mut other.images);
        mem::swap(&mut self.stores, &mut other.stores);
    }

    /// Keeps that many of each list from the front, or all if there are fewer.
    pub fn cut(&mut self, entries: usize, images: usize, stores: usize)
        ensures entries { self.new.entries ≡ take entries self.old.entries }
        ensures images { self.new.images ≡ take images self.old.images }
        ensures stores { self.new.stores ≡ take stores self.old.stores }
        ensures spare { self.old.spare ≤ self.new.spare }
    {
        self.entries.truncate(entries);
        self.images.truncate(images);
        self.stores.truncate(stores);
    }
}
