//! The law that the numbers of a report are in the ranges of their types, part by part. Each function reads what it
//! is given, and changes nothing.

ghost use Rattle.std.specs.Prelude.{ℤ, All};
ghost use Rattle.arrayvec.specs.ArrayVec.{ArrayVec};
ghost use Rattle.mate_journal.specs.Entries.{AreValues};
ghost use Rattle.mate_journal.specs.Ranges.{IsByteList, HasStampRange, HasAirRanges, HasImageRanges, HasStoreRanges, HasStampedRanges, HasAiredRanges, HasLogRanges, HasReportRanges};

use mate_journal::entry::values_are_in_range;
use mate_journal::{Air, Aired, NodeLog, Report, Stamped};
use mate_num::{Image, Payload, Stamp, Store};

/// The numbers of every report are in the ranges of their types. So the text of a tidy report is read as that report.
pub fn report_is_in_range(report: &Report)
    ensures { HasReportRanges report.now }
{
    let _events = report.events();
    logs_are_in_range(report.nodes());
    airs_are_in_range(report.air());
}

fn logs_are_in_range(logs: &[NodeLog])
    ensures { All HasLogRanges logs.now }
{
    for log in logs {
        log_is_in_range(log);
    }
}

fn log_is_in_range(log: &NodeLog)
    ensures { HasLogRanges log.now }
{
    entries_are_in_range(log.entries());
    images_are_in_range(log.images());
    stores_are_in_range(log.stores());
}

pub(crate) fn entries_are_in_range(entries: &[Stamped])
    ensures { All HasStampedRanges entries.now }
{
    for stamped in entries {
        stamped_is_in_range(stamped);
    }
}

fn stamped_is_in_range(stamped: &Stamped)
    ensures { HasStampedRanges stamped.now }
{
    stamp_is_in_range(&stamped.stamp);
    stamped.entry.is_in_range();
}

/// The event and the time of a stamp are in the ranges of their types.
pub fn stamp_is_in_range(stamp: &Stamp)
    ensures { HasStampRange stamp.now }
{
    let _event = stamp.event;
    let _time = stamp.time;
}

fn bytes_are_in_range(bytes: &[u8])
    ensures { IsByteList bytes.now }
{
    let _bytes = bytes;
}

pub(crate) fn images_are_in_range(images: &[Image])
    ensures { All HasImageRanges images.now }
{
    for image in images {
        image_is_in_range(image);
    }
}

fn image_is_in_range(image: &Image)
    ensures { HasImageRanges image.now }
{
    bytes_are_in_range(image.as_slice());
}

pub(crate) fn stores_are_in_range(stores: &[Store])
    ensures { All HasStoreRanges stores.now }
{
    for store in stores {
        store_is_in_range(store);
    }
}

fn store_is_in_range(store: &Store)
    ensures { HasStoreRanges store.now }
{
    values_are_in_range(store.shared.as_slice());
    buffers_are_in_range(store.buffers.as_slice());
}

fn buffers_are_in_range(buffers: &[Payload])
    ensures { All (λ (b : ArrayVec ℤ). AreValues b.items) buffers.now }
{
    for buffer in buffers {
        values_are_in_range(buffer.as_slice());
    }
}

pub(crate) fn airs_are_in_range(airs: &[Aired])
    ensures { All HasAiredRanges airs.now }
{
    for aired in airs {
        aired_is_in_range(aired);
    }
}

fn aired_is_in_range(aired: &Aired)
    ensures { HasAiredRanges aired.now }
{
    stamp_is_in_range(&aired.stamp);
    air_is_in_range(&aired.air);
}

fn air_is_in_range(air: &Air)
    ensures { HasAirRanges air.now }
{
    match air {
        Air::Interval { length } => {
            let _length = *length;
        }
        Air::Keep => {}
        Air::Sent { number, bytes } => {
            let _number = *number;
            bytes_are_in_range(bytes.as_slice());
        }
        Air::Lost { number, .. } => {
            let _number = *number;
        }
        Air::Got { number, .. } => {
            let _number = *number;
        }
        Air::Noise { bytes } => bytes_are_in_range(bytes.as_slice()),
    }
}
