//! Copies of what was recorded.

ghost use Rattle.std.specs.Prelude.{◌≡◌, ◌≤◌, ◌<◌, ◌+◌, ◌++◌, map, length, All};
ghost use Rattle.mate_journal.specs.Log.{IsSameLog};
ghost use Rattle.mate_journal.specs.OpenLog.{NumberFits, stamped_behind, joined};
ghost use Rattle.mate_journal.specs.declared.entry.Stamped.{Stamped as StampedEntry};
ghost use Rattle.world_runs.specs.Records.{FitsBehind};

use mate_journal::{Air, Aired, NodeLog, Stamped};
use mate_num::{Image, Store};

/// Appends a log behind another, its images and stores numbered anew.
pub(crate) fn append(own: &mut NodeLog, told: &NodeLog)
    requires room { length told.now.entries + length told.now.images + length told.now.stores ≤ own.old.spare }
    requires fits { FitsBehind own.old told.now }
    ensures { IsSameLog own.new (joined own.old told.now) }
{
    let images = own.images().len() as u32;
    let stores = own.stores().len() as u32;
    copy_images(own, told.images());
    copy_stores(own, told.stores());
    copy_entries(own, told.entries(), images, stores);
}

fn copy_images(own: &mut NodeLog, images: &[Image])
    requires room { length images.now ≤ own.old.spare }
    requires few { length own.old.images + length images.now < 4000000000 }
    ensures entries { own.new.entries ≡ own.old.entries }
    ensures images { own.new.images ≡ own.old.images ++ images.now }
    ensures stores { own.new.stores ≡ own.old.stores }
    ensures spare { own.old.spare ≤ own.new.spare + length images.now }
{
    for image in images {
        own.add_image(image);
    }
}

fn copy_stores(own: &mut NodeLog, stores: &[Store])
    requires room { length stores.now ≤ own.old.spare }
    requires few { length own.old.stores + length stores.now < 4000000000 }
    ensures entries { own.new.entries ≡ own.old.entries }
    ensures images { own.new.images ≡ own.old.images }
    ensures stores { own.new.stores ≡ own.old.stores ++ stores.now }
    ensures spare { own.old.spare ≤ own.new.spare + length stores.now }
{
    for store in stores {
        own.add_store(store);
    }
}

fn copy_entries(own: &mut NodeLog, entries: &[Stamped], images: u32, stores: u32)
    requires room { length entries.now ≤ own.old.spare }
    requires names { All (λ (s : StampedEntry). NumberFits images stores s.entry) entries.now }
    ensures entries { own.new.entries ≡ own.old.entries ++ map (stamped_behind images stores) entries.now }
    ensures images { own.new.images ≡ own.old.images }
    ensures stores { own.new.stores ≡ own.old.stores }
{
    for stamped in entries {
        own.push(Stamped {
            stamp: stamped.stamp,
            entry: stamped.entry.behind(images, stores),
        });
    }
}

/// The same again.
pub(crate) fn aired_again(aired: &Aired) -> Aired
    ensures { result ≡ aired.now }
{
    Aired {
        stamp: aired.stamp,
        node: aired.node,
        air: air_again(&aired.air),
    }
}

fn air_again(air: &Air) -> Air
    ensures { result ≡ air.now }
{
    match air {
        Air::Interval { length } => Air::Interval { length: *length },
        Air::Keep => Air::Keep,
        Air::Sent { number, bytes } => Air::Sent {
            number: *number,
            bytes: radio_sim::wire::copy_of(bytes),
        },
        Air::Lost { number, to } => Air::Lost {
            number: *number,
            to: *to,
        },
        Air::Got { number, from } => Air::Got {
            number: *number,
            from: *from,
        },
        Air::Noise { bytes } => Air::Noise {
            bytes: radio_sim::wire::copy_of(bytes),
        },
    }
}
