//! Programs that are ready to run.

ghost use Rattle.lock_inference.specs.Locks.{AreLocksOf};
ghost use Rattle.node_programs.specs.Right.{IsRightProgram};
ghost use Rattle.audit_programs.specs.Images.{IsImageCode};

use crate::kept::KeptRun;
use crate::settling::move_run;
use capsule_codec::decode;
use code_verifier::{Verified, verify};
use lock_inference::locks;
use mate_code::Table;
use mate_journal::StoredProgram;
use mate_num::{Call, Image, LockSet, NoMemory, Payload, Resource, Store};
use std::alloc::Global;
use vm_shape::{Description, shape};

/// A program with the verified code of its image and the locks that the code takes.
#[derive(Drop)]
pub struct ReadyProgram<'a> {
    program: &'a StoredProgram,
    code: Verified,
    locks: LockSet,
    ghost locks_are: { AreLocksOf code.shape code.code locks },
}

/// The code of the program's image.
fn code_of(desc: &Description, program: &StoredProgram) -> Verified
    requires { IsRightProgram desc.now program.now }
    ensures { IsImageCode desc.now program.now.image result }
{
    let decoded = decode(desc, program.image.as_slice());
    let capsule = match &decoded {
        Ok(capsule) => capsule,
        Err(_) => unreachable!(),
    };
    let table = Table::of(&shape(desc));
    let Ok(code) = verify(&table, desc, capsule.code.as_slice()) else {
        unreachable!()
    };
    code
}

impl<'a> ReadyProgram<'a> {
    ghost use Rattle.std.specs.Prelude.{◌≡◌, ℤ, List, IfOk, IfSome, Decides, IsTrue};
    ghost use Rattle.mate_num.specs.Uses.{Conflicts, uses};
    ghost use Rattle.mate_num.specs.Locks.{is_resource};
    ghost use Rattle.mate_code.specs.CodeUses.{uses_of};
    ghost use Rattle.mate_code.specs.Run.{code_run};
    ghost use Rattle.exec_unit.specs.Step.{HasLengths};
    ghost use Rattle.exec_unit.specs.declared.step_end.StepEnd.TheVariants as stands;
    ghost use Rattle.node_programs.specs.Sources.{held_as};
    ghost use Rattle.audit_programs.specs.Kept.{answers_to, outcome_in, HasTaken, IsRunBehind, IsRunOf, IsRunWith};
    ghost use Rattle.audit_programs.specs.Ready.{IsReadyAs};

    /// The right program, made ready.
    pub fn of(desc: &Description, program: &'a StoredProgram) -> ReadyProgram<'a>
        requires { IsRightProgram desc.now program.now }
        ensures ready { IsReadyAs desc.now (held_as program.now) result }
        ensures program { result.program.now ≡ program.now }
    {
        let code = code_of(desc, program);
        ReadyProgram {
            program,
            locks: locks(desc, &code),
            code,
        }
    }

    /// Whether this is the program's image.
    pub fn has_image(&self, image: &Image) -> bool
        ensures { IsTrue result → self.now.program.now.image ≡ image.now }
    {
        let program = self.program;
        program.image.as_slice() == image.as_slice()
    }

    /// Whether one of the two writes what the other reads or writes.
    pub fn conflicts(&self, other: &ReadyProgram) -> bool
        ensures { Decides result (Conflicts (uses_of self.now.code.shape self.now.code.code)
            (uses_of other.now.code.shape other.now.code.code)) }
    {
        !self.locks.compatible(&other.locks)
    }

    /// Whether it writes the resource.
    pub fn writes(&self, resource: Resource) -> bool
        requires { IsTrue (is_resource resource) }
        ensures { result ≡ (uses_of self.now.code.shape self.now.code.code).writes resource }
    {
        self.locks.writes(resource)
    }

    /// Whether it reads or writes the resource.
    pub fn uses(&self, resource: Resource) -> bool
        requires { IsTrue (is_resource resource) }
        ensures { result ≡ uses (uses_of self.now.code.shape self.now.code.code) resource }
    {
        self.locks.reads(resource) || self.locks.writes(resource)
    }

    /// The run that was kept, if it is one on such a store with this message and took no other answers than those to
    /// these calls; otherwise one that begins.
    fn kept_or_new(
        &self,
        alloc: Global,
        kept: Option<KeptRun<'a>>,
        store: &Store,
        payload: &Payload,
        calls: &[Call],
        turns: u32,
    ) -> KeptRun<'a>
        requires lengths { HasLengths self.now.code.shape store.now }
        requires kept { IfSome kept (λ k. k.program.now.image ≡ self.now.program.now.image → IsRunOf self.now.code.shape self.now.code.code turns k) }
        ensures { IsRunBehind self.now.code self.now.program.now.image turns store.now payload.now (answers_to calls.now) result }
    {
        let _verified = self.code.shape();
        if let Some(mut run) = kept {
            if run.serves(self.program, payload, calls) && move_run(&mut run, self, turns, store) {
                return run;
            }
        }
        KeptRun::begin(alloc, self.program, store, payload, turns)
    }

    /// The run on a store with a message, with the answers to these calls, where it took the last one. It goes on from
    /// where it was kept, if it was. `NoMemory` comes only if memory for the list of calls is refused.
    pub fn run(
        &self,
        alloc: Global,
        kept: Option<KeptRun<'a>>,
        store: &Store,
        payload: &Payload,
        calls: &[Call],
        turns: u32,
    ) -> Result<KeptRun<'a>, NoMemory>
        requires lengths { HasLengths self.now.code.shape store.now }
        requires kept { IfSome kept (λ k. k.program.now.image ≡ self.now.program.now.image → IsRunOf self.now.code.shape self.now.code.code turns k) }
        ensures run { IfOk result (IsRunWith self.now.code self.now.program.now.image turns store.now payload.now (answers_to calls.now)) }
        ensures calls { IfOk result (λ k. k.calls
            ≡ (code_run self.now.code.shape self.now.code.code store.now payload.now (answers_to calls.now) turns).calls) }
    {
        let _verified = self.code.shape();
        let mut run = self.kept_or_new(alloc, kept, store, payload, calls, turns);
        run.catch_up(&self.code, turns, calls)?;
        Ok(run)
    }

    /// Lets a run of the program go on to a call that has no answer, or to its end.
    pub fn finish(&self, run: &mut KeptRun<'a>, turns: u32)
        requires { IsRunOf self.now.code.shape self.now.code.code turns run.old }
        ensures run { IsRunOf self.now.code.shape self.now.code.code turns run.new }
        ensures program { run.new.program ≡ run.old.program }
        ensures stops { run.new.how ≡ stands.Next → ⊥ }
        ensures outcome { (answers : List ℤ) → HasTaken run.old.how (answers_to run.old.calls) answers
            → outcome_in run.new ≡ code_run self.now.code.shape self.now.code.code run.old.base run.old.payload answers turns }
    {
        let _verified = self.code.shape();
        run.go_on(&self.code, turns);
    }
}
