//! What happens on a node, one entry each.

ghost use Rattle.std.specs.Prelude.{◌≡◌, All, FitsSigned};
ghost use Rattle.std.specs.Int.{w16};
ghost use Rattle.mate_journal.specs.Entries.{AreValues, HasVoidRanges, HasEntryRanges};
ghost use Rattle.mate_journal.specs.OpenLog.{NumberFits, entry_behind};

use mate_num::{ContextId, FaultKind, FunId, HandlerId, Payload, Stamp, copy_of};

/// Why an event for a handler made no invocation.
#[derive(Clone, Copy)]
pub enum DropCause {
    /// Nothing is installed for the handler.
    NoCode,
    /// Each context of the handler has a live invocation.
    AllBusy,
}

/// Why a step of a script did nothing.
#[derive(Clone, Copy)]
pub enum VoidCause {
    /// No ready invocation is in the context.
    NotReady,
    /// No waiting invocation is in the context.
    NotWaiting,
    /// The handler's version that the node holds is not older.
    NotNewer { held: u32 },
}

/// One thing that happened on a node. Invocations are numbered from 1 in the order of their posts;
/// an image or a store is named by its position in the log's lists.
#[derive(Drop)]
pub enum Entry {
    /// An event for the handler became an invocation, which has the context from now on.
    Post {
        inv: u32,
        handler: HandlerId,
        ctx: ContextId,
        payload: Payload,
    },
    /// An event for the handler made no invocation.
    Dropped {
        handler: HandlerId,
        cause: DropCause,
    },
    /// The invocation was granted all its locks.
    Start {
        inv: u32,
    },
    /// The invocation calls a function and waits.
    Ask {
        inv: u32,
        fun: FunId,
        args: Payload,
    },
    /// The invocation's call was answered.
    Answer {
        inv: u32,
        value: i16,
    },
    /// The invocation ran to its end.
    Halt {
        inv: u32,
    },
    /// The invocation was stopped.
    Fault {
        inv: u32,
        kind: FaultKind,
    },
    /// A capsule was installed, and an era begins.
    Install {
        handler: HandlerId,
        version: u32,
        image: u32,
    },
    /// The node was reset, and an era begins.
    Reset,
    /// The shared variables and buffers as they are.
    Seen {
        store: u32,
    },
    /// A step of a script that could do nothing.
    Void {
        cause: VoidCause,
    },
}

impl Entry {
    /// The entry again, if so many images and stores come before those of its own log.
    #[inline(never)]
    pub fn behind(&self, images: u32, stores: u32) -> Entry
        requires { NumberFits images stores self.now }
        ensures { result ≡ entry_behind images stores self.now }
    {
        match self {
            Entry::Post {
                inv,
                handler,
                ctx,
                payload,
            } => Entry::Post {
                inv: *inv,
                handler: *handler,
                ctx: *ctx,
                payload: copy_of(payload),
            },
            Entry::Dropped { handler, cause } => Entry::Dropped {
                handler: *handler,
                cause: *cause,
            },
            Entry::Start { inv } => Entry::Start { inv: *inv },
            Entry::Ask { inv, fun, args } => Entry::Ask {
                inv: *inv,
                fun: *fun,
                args: copy_of(args),
            },
            Entry::Answer { inv, value } => Entry::Answer {
                inv: *inv,
                value: *value,
            },
            Entry::Halt { inv } => Entry::Halt { inv: *inv },
            Entry::Fault { inv, kind } => Entry::Fault {
                inv: *inv,
                kind: *kind,
            },
            Entry::Install {
                handler,
                version,
                image,
            } => Entry::Install {
                handler: *handler,
                version: *version,
                image: images + *image,
            },
            Entry::Reset => Entry::Reset,
            Entry::Seen { store } => Entry::Seen {
                store: stores + *store,
            },
            Entry::Void { cause } => Entry::Void { cause: *cause },
        }
    }

    /// The law that its numbers are in the ranges of their types. It reads them, and changes nothing.
    pub fn is_in_range(&self)
        ensures { HasEntryRanges self.now }
    {
        match self {
            Entry::Post { inv, payload, .. } => {
                let _inv = *inv;
                payload_is_in_range(payload);
            }
            Entry::Ask { inv, args, .. } => {
                let _inv = *inv;
                payload_is_in_range(args);
            }
            Entry::Answer { inv, value } => {
                let _inv = *inv;
                let _value = *value;
            }
            Entry::Start { inv } => {
                let _inv = *inv;
            }
            Entry::Halt { inv } => {
                let _inv = *inv;
            }
            Entry::Fault { inv, .. } => {
                let _inv = *inv;
            }
            Entry::Install { version, .. } => {
                let _version = *version;
            }
            Entry::Void { cause } => cause_is_in_range(cause),
            _ => {}
        }
    }
}

fn cause_is_in_range(cause: &VoidCause)
    ensures { HasVoidRanges cause.now }
{
    match cause {
        VoidCause::NotNewer { held } => {
            let _held = *held;
        }
        VoidCause::NotReady | VoidCause::NotWaiting => {}
    }
}

fn payload_is_in_range(payload: &Payload)
    ensures { AreValues payload.now.items }
{
    values_are_in_range(payload.as_slice());
}

/// Each value is in the range of its type.
pub fn values_are_in_range(values: &[i16])
    ensures { All (λ v. FitsSigned w16 v) values.now }
{
    for value in values {
        let _value = *value;
    }
}

/// An entry, and when it was made.
#[derive(Drop)]
pub struct Stamped {
    pub stamp: Stamp,
    pub entry: Entry,
}
