//! The state of the evaluator, and how it is read and changed.

use crate::items::{append, item, set_item, take_last};
use mate_num::{
    BufId, Call, Calls, End, FaultKind, FunId, Outcome, PRIVATES, Payload, Store, VarId, copy_of,
};
use std::alloc::Global;
use ts_checked::CVar;

/// A run that goes on.
#[derive(Drop)]
pub(crate) struct Evaluator<'a> {
    store: Store,
    privates: [i16; PRIVATES],
    pub(crate) msg: &'a Payload,
    // The answers that no call took yet.
    answers: &'a [i16],
    calls: Calls,
    turns: u32,
}

/// Why a run stops.
#[derive(Drop)]
pub(crate) enum Stop {
    Ended(End),
    OutOfMemory,
}

impl From<FaultKind> for Stop {
    ghost use Rattle.std.specs.Prelude.{◌≡◌};
    ghost use Rattle.ts_meaning.specs.declared.evaluator.Stop.TheVariants.{Ended};
    ghost use Rattle.mate_num.specs.declared.call.End.TheVariants.{Fault};

    ghost from_gives = { λ kind stop. stop ≡ Ended (Fault kind) };

    fn from(kind: FaultKind) -> Stop {
        Stop::Ended(End::Fault(kind))
    }
}

impl<'a> Evaluator<'a> {
    ghost use Rattle.std.specs.Prelude.{◌≡◌, ◌<◌, ◌≤◌, [], length, OnOk, pos};
    ghost use Rattle.mate_num.specs.Store.{value_at, buffer_at, item_of, appended, item_set, last_of};
    ghost use Rattle.ts_semantics.specs.State.{value_or_fault, private_at, variable_at, with_variable, with_buffer, buffer_changed, moved};
    ghost use Rattle.ts_semantics.specs.State.{next_answer, begun_state, with_turns, Done};
    ghost use Rattle.ts_semantics.specs.Meaning.{outcome_at};
    ghost use Rattle.ts_meaning.specs.Follows.{state_of, FollowsMeaning};

    /// The beginning of a run.
    pub(crate) fn new(
        alloc: Global,
        store: Store,
        msg: &'a Payload,
        answers: &'a [i16],
        turns: u32,
    ) -> Evaluator<'a>
        ensures { state_of result ≡ begun_state store msg.now answers.now turns }
    {
        Evaluator {
            store,
            privates: [0; PRIVATES],
            msg,
            answers,
            calls: Calls::new(alloc),
            turns,
        }
    }

    /// The outcome of a run that ends here.
    pub(crate) fn outcome(self, end: End) -> Outcome
        ensures { result ≡ outcome_at end (state_of self.entry) }
    {
        Outcome {
            end,
            store: self.store,
            calls: self.calls,
        }
    }

    pub(crate) fn shared(&self, variable: VarId) -> i16
        ensures { result ≡ value_at self.now.store variable.0 }
    {
        match self.store.shared.as_slice().get(variable.0 as usize) {
            None => 0,
            Some(value) => *value,
        }
    }

    pub(crate) fn private(&self, private: u8) -> i16
        ensures { result ≡ private_at (state_of self.now) private }
    {
        match self.privates.get(private as usize) {
            None => 0,
            Some(value) => *value,
        }
    }

    pub(crate) fn variable(&self, variable: CVar) -> i16
        ensures { result ≡ variable_at variable (state_of self.now) }
    {
        match variable {
            CVar::Shared(variable) => self.shared(variable),
            CVar::Private(private) => self.private(private),
        }
    }

    /// A buffer's values.
    pub(crate) fn buffer(&self, buffer: BufId) -> &[i16]
        ensures { result.now ≡ buffer_at self.now.store buffer.0 }
    {
        match self.store.buffers.as_slice().get(buffer.0 as usize) {
            None => &[],
            Some(values) => values.as_slice(),
        }
    }

    /// The value at an index of a buffer, from 0; the fault `Index` outside its values.
    pub(crate) fn item(&self, buffer: BufId, index: i16) -> Result<i16, Stop>
        ensures { let values = buffer_at self.now.store buffer.0 in
            FollowsMeaning (value_or_fault (item_of values index)) self.now result self.now }
    {
        Ok(item(self.buffer(buffer), index)?)
    }

    /// The value at an index of the message, from 0; the fault `Index` outside its values.
    pub(crate) fn message_item(&self, index: i16) -> Result<i16, Stop>
        ensures { FollowsMeaning (value_or_fault (item_of self.now.msg.now.items index)) self.now result self.now }
    {
        Ok(item(self.msg.as_slice(), index)?)
    }

    /// How many values a buffer holds.
    pub(crate) fn size(&self, buffer: BufId) -> i16
        ensures { result ≡ pos (length (buffer_at self.now.store buffer.0)) }
    {
        match self.store.buffers.as_slice().get(buffer.0 as usize) {
            None => 0,
            Some(values) => values.len() as i16,
        }
    }

    /// A copy of a buffer's values.
    pub(crate) fn payload(&self, buffer: BufId) -> Payload
        ensures { result.items ≡ buffer_at self.now.store buffer.0 }
    {
        match self.store.buffers.as_slice().get(buffer.0 as usize) {
            None => Payload::new(),
            Some(values) => copy_of(values),
        }
    }

    pub(crate) fn set(&mut self, variable: CVar, value: i16)
        ensures { state_of self.new ≡ with_variable variable value (state_of self.old) }
    {
        match variable {
            CVar::Shared(variable) => self.set_shared(variable, value),
            CVar::Private(private) => self.set_private(private, value),
        }
    }

    fn set_shared(&mut self, variable: VarId, value: i16)
        ensures { state_of self.new ≡ with_variable (CVar.Shared variable) value (state_of self.old) }
    {
        let index = variable.0 as usize;
        if index < self.store.shared.len() {
            self.store.shared.as_mut_slice()[index] = value;
        }
    }

    fn set_private(&mut self, private: u8, value: i16)
        ensures { state_of self.new ≡ with_variable (CVar.Private private) value (state_of self.old) }
    {
        let index = private as usize;
        if index < self.privates.len() {
            self.privates[index] = value;
        }
    }

    fn set_buffer(&mut self, buffer: BufId, values: Payload)
        ensures { state_of self.new ≡ with_buffer buffer values.items (state_of self.old) }
    {
        let index = buffer.0 as usize;
        if index < self.store.buffers.len() {
            self.store.buffers.as_mut_slice()[index] = values;
        }
    }

    pub(crate) fn clear(&mut self, buffer: BufId)
        ensures { state_of self.new ≡ with_buffer buffer [] (state_of self.old) }
    {
        self.set_buffer(buffer, Payload::new());
    }

    /// Sets the value at an index of a buffer, from 0; the fault `Index` outside its values.
    pub(crate) fn set_item(&mut self, buffer: BufId, index: i16, value: i16) -> Result<(), Stop>
        ensures follows { let old = buffer_at self.old.store buffer.0 in
            FollowsMeaning (buffer_changed buffer (item_set old index value)) self.old result self.new }
        ensures turns { self.new.turns ≡ self.old.turns }
    {
        let mut values = self.payload(buffer);
        set_item(&mut values, index, value)?;
        self.set_buffer(buffer, values);
        Ok(())
    }

    /// Appends a value to a buffer; the fault `BufferFull` if it holds 10.
    pub(crate) fn append(&mut self, buffer: BufId, value: i16) -> Result<(), Stop>
        ensures follows { let old = buffer_at self.old.store buffer.0 in
            FollowsMeaning (buffer_changed buffer (appended old value)) self.old result self.new }
        ensures turns { self.new.turns ≡ self.old.turns }
    {
        let mut values = self.payload(buffer);
        append(&mut values, value)?;
        self.set_buffer(buffer, values);
        Ok(())
    }

    /// Takes the last value of a buffer into a variable.
    pub(crate) fn take(&mut self, variable: CVar, buffer: BufId) -> Result<(), Stop>
        ensures follows { let old = buffer_at self.old.store buffer.0 in
            FollowsMeaning (moved variable buffer (last_of old)) self.old result self.new }
        ensures turns { self.new.turns ≡ self.old.turns }
    {
        let mut values = self.payload(buffer);
        let value = take_last(&mut values)?;
        self.set_buffer(buffer, values);
        self.set(variable, value);
        Ok(())
    }

    /// Calls a function: takes the next answer, or ends the run if there is none.
    pub(crate) fn ask(&mut self, fun: FunId, args: Payload) -> Result<i16, Stop>
        ensures follows { FollowsMeaning (next_answer fun args) self.old result self.new }
        ensures turns { self.new.turns ≡ self.old.turns }
    {
        let Some((answer, left)) = self.answers.split_first() else {
            return Err(Stop::Ended(End::Wants { fun, args }));
        };
        let result = *answer;
        let call = Call { fun, args, result };
        match self.calls.push(call) {
            Err(_) => return Err(Stop::OutOfMemory),
            Ok(()) => {}
        }
        self.answers = left;
        Ok(result)
    }

    /// Pays a turn for going back; the fault `Overrun` if none is left.
    pub(crate) fn pay(&mut self) -> Result<(), Stop>
        ensures follows { FollowsMeaning (λ s. with_turns s.turns (Done tt) s) self.old result self.new }
        ensures turns { OnOk result (self.new.turns < self.old.turns) }
        ensures falls { self.new.turns ≤ self.old.turns }
    {
        if self.turns == 0 {
            return Err(Stop::from(FaultKind::Overrun));
        }
        self.turns -= 1;
        Ok(())
    }
}
