//! The laws of journals. Each is what a function promises that does nothing. A journal here is one that is well
//! formed and keeps the grant rule, from its first entry on.

ghost use Rattle.std.specs.Prelude.{List};
ghost use Rattle.mate_journal.specs.Machine.{Machine};
ghost use Rattle.mate_journal.specs.Journal.{TimedEntry, first_state, AtEachPlace};
ghost use Rattle.mate_journal.specs.WellFormed.{IsWellFormed};
ghost use Rattle.mate_journal.specs.Serial.{IsSerial};
ghost use Rattle.mate_journal.specs.Grants.{GrantsInOrder};
ghost use Rattle.journal_laws.specs.Apart.{AreApart, EndAsPosted};
ghost use Rattle.mate_journal.specs.Devices.{DeviceOf, WritesWhatItAsks, AsksDevicesInOrder};
ghost use Rattle.journal_laws.specs.Progress.{IsNeverStuck};
ghost use Rattle.journal_laws.specs.ReadingOrder.{ReadsDevicesInOrder};

/// At each place two started live invocations don't conflict.
pub fn runs_no_conflicting_ones_side_by_side()
    ensures { (m : Machine) (es : List TimedEntry) →
        IsWellFormed m (first_state m) es → GrantsInOrder m (first_state m) 0 es → AtEachPlace (AreApart m) m (first_state m) es }
{}

/// Conflicting invocations end in the order of their posts, in one era or in several.
pub fn ends_as_posted()
    ensures { (m : Machine) (es : List TimedEntry) →
        IsWellFormed m (first_state m) es → GrantsInOrder m (first_state m) 0 es → EndAsPosted m (first_state m) es }
{}

/// In each era, and in each part of one, of two invocations that call a device, the one that calls first ends before the other
/// calls.
pub fn asks_devices_in_order()
    ensures { (m : Machine) (es : List TimedEntry) (device_of : DeviceOf) →
        WritesWhatItAsks device_of m.meaning → IsWellFormed m (first_state m) es → IsSerial m (first_state m) es
        → GrantsInOrder m (first_state m) 0 es →
        AsksDevicesInOrder device_of es }
{}

/// In each era, and in each part of one, the calls to a device have rising positions if the invocations are read in the order of
/// their ends, and after them those that never end.
pub fn reads_devices_in_order()
    ensures { (m : Machine) (es : List TimedEntry) (device_of : DeviceOf) →
        WritesWhatItAsks device_of m.meaning → IsWellFormed m (first_state m) es → IsSerial m (first_state m) es
        → GrantsInOrder m (first_state m) 0 es →
        ReadsDevicesInOrder device_of es }
{}

/// At each place, if no start follows, some invocation is ready, or one waits for an answer, or none is live.
pub fn is_never_stuck()
    ensures { (m : Machine) (es : List TimedEntry) →
        IsWellFormed m (first_state m) es → GrantsInOrder m (first_state m) 0 es → IsNeverStuck m (first_state m) es }
{}
