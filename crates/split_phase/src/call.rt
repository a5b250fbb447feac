//! A call that waits for its answer.

ghost use Rattle.std.specs.Prelude.{◌≡◌};

use mate_num::{FunId, PAYLOAD_MAX, Payload};
use std::marker::Model;

/// A function and the values that it is called with, in 22 bytes, since a node has a place for one in each context. Contracts see both.
#[derive(Drop)]
pub struct Call {
    fun: FunId,
    // How many of the values are the call's.
    count: u8,
    // The call's values, and any others after them.
    values: [i16; PAYLOAD_MAX],
}

impl Model for Call {
    ghost use Rattle.std.specs.Prelude.{◌≡◌, ◌≤◌, length, take};
    ghost use Rattle.mate_num.specs.declared.bounds.TheConstants.{PAYLOAD_MAX};
    ghost use Rattle.split_phase.specs.Calls.{Asked};

    ghost Value = { Asked };

    ghost view = { λ c. (c.fun, record { items = take c.count c.values }) };

    ghost invariant = { λ c. (c.count ≤ PAYLOAD_MAX) × (length c.values ≡ PAYLOAD_MAX) };
}

impl Call {
    /// The call of `fun` with `args`.
    pub(crate) fn of(fun: FunId, args: &Payload) -> Call
        ensures { result ≡ (fun, args.now) }
    {
        let mut values = [0; PAYLOAD_MAX];
        values[..args.len()].copy_from_slice(args.as_slice());
        Call {
            fun,
            count: args.len() as u8,
            values,
        }
    }

    /// The function.
    pub(crate) fn fun(&self) -> FunId
        ensures { result ≡ self.now.0 }
    {
        self.fun
    }

    /// A copy of the values that it is called with.
    pub(crate) fn args(&self) -> Payload
        ensures { result ≡ self.now.1 }
    {
        let Ok(args) = Payload::try_from(&self.values[..self.count as usize]) else {
            unreachable!()
        };
        args
    }
}
