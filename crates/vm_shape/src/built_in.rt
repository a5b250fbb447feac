//! The built-in machine.

ghost use Rattle.std.specs.Prelude.{◌≡◌, codes, IsTrue, ◌≤◌, length};
ghost use Rattle.mate_num.specs.declared.bounds.TheConstants.{NAME_MAX};
ghost use Rattle.vm_shape.specs.Whole.{parts_of, builtin_parts};

use crate::description::Description;
use crate::handler::{Handler, HandlerKind};
use crate::settings::{RadioSet, TrickleSet};
use arrayvec::ArrayVec;
use mate_num::{HANDLERS_MAX, Name, SHARED_MAX};

/// The built-in machine: number 1, one plain handler `main` with one context, the shared variables
/// `a`, `b`, `c` and `d`, no function, buffer or device, and the default settings.
pub fn builtin() -> Description
    ensures { parts_of result ≡ builtin_parts }
{
    let mut handlers: ArrayVec<Handler, HANDLERS_MAX> = ArrayVec::new();
    handlers.push(Handler {
        name: name("main"),
        kind: HandlerKind::Plain,
        contexts: 1,
    });
    let mut shared: ArrayVec<Name, SHARED_MAX> = ArrayVec::new();
    shared.push(name("a"));
    shared.push(name("b"));
    shared.push(name("c"));
    shared.push(name("d"));
    Description {
        vm_id: 1,
        handlers,
        functions: ArrayVec::new(),
        shared,
        buffers: ArrayVec::new(),
        devices: ArrayVec::new(),
        turns: 10_000,
        quantum: 16,
        trickle: TrickleSet {
            imin: 1_000,
            doublings: 4,
            k: 2,
        },
        radio: RadioSet { delay: 5, gap: 50 },
    }
}

fn name(text: &str) -> Name
    requires { length text.now ≤ NAME_MAX }
    ensures { result ≡ text.now }
{
    let Some(name) = Name::new(text) else {
        unreachable!()
    };
    name
}
