//! The ready program of each handler.

use crate::ready::ReadyProgram;
use mate_num::{HANDLERS_MAX, HandlerId, NoMemory};
use std::alloc::Global;

/// The program that was installed last for each of 8 handlers, made ready. Programs are large, so each is on the heap by itself.
#[derive(Drop)]
pub struct ReadyPrograms<'a> {
    programs: Vec<Option<Box<ReadyProgram<'a>>>>,
}

impl<'a> ReadyPrograms<'a> {
    ghost use Rattle.std.specs.Prelude.{◌≡◌, ◌<◌, Some, None, length, slice_set, replicate, IfOk, OnOk};
    ghost use Rattle.std.specs.Option.{option_copied};
    ghost use Rattle.mate_num.specs.declared.bounds.TheConstants.{HANDLERS_MAX};
    ghost use Rattle.audit_programs.specs.Ready.{installed_programs, ready_at};

    /// Nothing is installed.
    pub fn new(alloc: Global) -> Result<ReadyPrograms<'a>, NoMemory>
        ensures { IfOk result (λ t. installed_programs t ≡ replicate HANDLERS_MAX None) }
    {
        let mut programs = Vec::with_capacity(alloc, HANDLERS_MAX)?;
        for _place in 0..HANDLERS_MAX {
            programs.push(None)?;
        }
        Ok(ReadyPrograms { programs })
    }

    /// The program that was installed last for the handler; None if there is none, also for a handler of no such number.
    pub fn get(&self, handler: HandlerId) -> Option<&ReadyProgram<'a>>
        ensures { option_copied result ≡ ready_at (installed_programs self.now) handler }
    {
        match self.programs.get(usize::from(handler.0)) {
            Some(Some(program)) => Some(&**program),
            Some(None) => None,
            None => None,
        }
    }

    /// Puts the program in the place of the handler's one before.
    pub fn install(
        &mut self,
        alloc: Global,
        handler: HandlerId,
        program: ReadyProgram<'a>,
    ) -> Result<(), NoMemory>
        requires { handler.0 < length (installed_programs self.old) }
        ensures { OnOk result (installed_programs self.new ≡ slice_set (installed_programs self.old) handler.0 (Some program.entry)) }
    {
        self.programs[usize::from(handler.0)] = Some(Box::new(alloc, program)?);
        Ok(())
    }
}
