//! The versions that a node holds for its handlers, as capsules come in.

ghost use Rattle.std.specs.Prelude.{◌≡◌, ◌<◌, ℕ, MatchResult};
ghost use Rattle.capsule_codec.specs.Image.{capsule_parts};
ghost use Rattle.capsule_codec.specs.Reading.{capsule_in};
ghost use Rattle.mate_code.specs.Table.{table_of};
ghost use Rattle.slip_gateway.specs.Pieces.{IsWholeFrame, fault_frame};
ghost use Rattle.slip_gateway.specs.declared.frames.Frame.{Frame};
ghost use Rattle.vm_shape.specs.Shapes.{shape_of};
ghost use Rattle.command_documents.specs.FeedAnswers.{answer_to, decoded_answer, held_after, if_newer};
ghost use Rattle.command_documents.specs.FeedLines.{HasHandler};

use crate::answer::Answer;
use capsule_codec::{Capsule, decode};
use code_verifier::Verifier;
use mate_code::Table;
use mate_num::HANDLERS_MAX;
use slip_gateway::FrameFault;
use vm_shape::Description;

/// The version that is held for each handler, 0 for none.
#[derive(Drop)]
pub(crate) struct HeldVersions {
    versions: [u32; HANDLERS_MAX],
}

impl HeldVersions {
    ghost use Rattle.command_documents.specs.FeedReading.{held_by};

    /// Nothing is held.
    pub(crate) fn new() -> HeldVersions
        ensures { (h : ℕ) → held_by result h ≡ 0 }
    {
        HeldVersions {
            versions: [0; HANDLERS_MAX],
        }
    }

    /// The answer to a frame of these bytes, or to one that isn't whole, by the machine and its opcode table; a capsule that
    /// it installs is held from then on. `verifier` is room for its code.
    pub(crate) fn answer(
        &mut self,
        desc: &Description,
        table: &Table,
        verifier: &mut Verifier,
        frame: Result<&[u8], FrameFault>,
    ) -> Answer
        requires { table.now ≡ table_of (shape_of desc.now) }
        ensures answer { (f : Frame) → MatchResult frame.entry (λ bytes. IsWholeFrame f bytes.now) (λ fault. f ≡ fault_frame fault)
            → result ≡ answer_to desc.now (held_by self.old) f }
        ensures held { (h : ℕ) → held_by self.new h ≡ held_after (held_by self.old) result h }
        ensures handler { HasHandler desc.now result }
    {
        match frame {
            Ok(image) => self.answer_image(desc, table, verifier, image),
            Err(FrameFault::TooLong) => Answer::Long,
            Err(FrameFault::BadEscape) => Answer::Broken,
        }
    }

    /// The answer to the bytes of a frame.
    #[inline(never)]
    fn answer_image(
        &mut self,
        desc: &Description,
        table: &Table,
        verifier: &mut Verifier,
        image: &[u8],
    ) -> Answer
        requires { table.now ≡ table_of (shape_of desc.now) }
        ensures answer { result ≡ decoded_answer desc.now (held_by self.old) (capsule_in desc.now image.now) }
        ensures held { (h : ℕ) → held_by self.new h ≡ held_after (held_by self.old) result h }
        ensures handler { HasHandler desc.now result }
    {
        let decoded = decode(desc, image);
        let capsule = match &decoded {
            Ok(capsule) => capsule,
            Err(fault) => return Answer::NoCapsule(*fault),
        };
        match verifier.check(table, desc, capsule.code.as_slice()) {
            Ok(()) => self.take(capsule),
            Err(fault) => Answer::BadCode(fault),
        }
    }

    /// The answer to a capsule with right code.
    fn take(&mut self, capsule: &Capsule) -> Answer
        requires { capsule.now.handler.0 < HANDLERS_MAX }
        ensures answer { result ≡ if_newer (held_by self.old) (capsule_parts capsule.now) }
        ensures held { (h : ℕ) → held_by self.new h ≡ held_after (held_by self.old) result h }
    {
        let held = &mut self.versions[usize::from(capsule.handler.0)];
        if capsule.version <= *held {
            return Answer::NotNewer { held: *held };
        }
        *held = capsule.version;
        Answer::Installed {
            handler: capsule.handler,
            version: capsule.version,
        }
    }
}
