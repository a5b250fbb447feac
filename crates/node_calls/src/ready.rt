//! Capsules that are ready to be installed on the nodes of a machine.

ghost use Rattle.std.specs.Prelude.{◌≡◌, ◌≤◌, All, length, IfOk, IfSome, IsTrue};
ghost use Rattle.vm_shape.specs.Shapes.{shape_of};
ghost use Rattle.code_verifier.specs.Verified.{IsVerificationOf};
ghost use Rattle.node_calls.specs.Installing.{IsInstallable, IsReadAs, IsReady, IsReadyOn};

use crate::installing::program_with;
use capsule_codec::{CapsuleRef, decode_in_place};
use code_verifier::{Verified, verify};
use mate_code::Table;
use mate_num::{HandlerId, IMAGE_HEAD, NoMemory};
use node_state::SharedHeld;
use std::alloc::Global;
use vm_shape::{Description, shape};

/// A right capsule, as it is installed: its handler, and its program, which is in one place for all nodes.
#[derive(Drop)]
pub struct ReadyCapsule {
    pub handler: HandlerId,
    pub program: SharedHeld,
}

impl ReadyCapsule {
    /// The capsule of the machine that the bytes are, if they are one and its code is verified.
    pub fn of(
        alloc: Global,
        description: &Description,
        bytes: &[u8],
    ) -> Result<Option<ReadyCapsule>, NoMemory>
        ensures { IfOk result (λ ready. IfSome ready (IsReady description.now bytes.now)) }
    {
        let Ok(capsule) = decode_in_place(description, bytes) else {
            return Ok(None);
        };
        let table = Table::of(&shape(description));
        let Ok(code) = verify(&table, description, capsule.code) else {
            return Ok(None);
        };
        let program = shared_program(alloc, description, bytes, &capsule, code)?;
        Ok(Some(ReadyCapsule {
            handler: capsule.handler,
            program,
        }))
    }

    /// Whether the bytes have its code.
    fn has_code(&self, bytes: &[u8]) -> bool {
        code_of(self.program.as_held().image.as_slice()) == code_of(bytes)
    }

    /// Whether it comes before the bytes, in the order of lengths, then of codes, and then of all bytes.
    fn is_before(&self, bytes: &[u8]) -> bool {
        let image = self.program.as_held().image.as_slice();
        if image.len() != bytes.len() {
            image.len() < bytes.len()
        } else if image == bytes {
            // (to find equal bytes equal is quicker than to find their order)
            false
        } else if self.has_code(bytes) {
            image < bytes
        } else {
            code_of(image) < code_of(bytes)
        }
    }

    /// Whether the bytes are its image.
    pub fn is_image(&self, bytes: &[u8]) -> bool
        ensures { IsTrue result → self.now.program.image.items ≡ bytes.now }
    {
        self.program.as_held().image.as_slice() == bytes
    }

    /// Its program for one node more, if the bytes are its image and a machine word counts the nodes.
    pub(crate) fn shared_if(&self, description: &Description, bytes: &[u8]) -> Option<SharedHeld>
        requires { IsReadyOn description.now self.now }
        ensures { IfSome result (λ program. IsInstallable description.now bytes.now
            (record { handler = self.now.handler; held = program })) }
    {
        let _description = description;
        if !self.is_image(bytes) {
            return None;
        }
        match self.program.share() {
            Ok(program) => Some(program),
            Err(_) => None,
        }
    }
}

/// The program of the capsule that the bytes are, with its code, in one place for all nodes. It isn't inlined, so that it takes no room
/// while the code is verified.
#[inline(never)]
fn shared_program(
    alloc: Global,
    description: &Description,
    bytes: &[u8],
    capsule: &CapsuleRef<'_>,
    code: Verified,
) -> Result<SharedHeld, NoMemory>
    requires read { IsReadAs description.now bytes.now capsule.now }
    requires verified { IsVerificationOf (shape_of description.now) capsule.now.code.now code }
    ensures { IfOk result (λ program. IsInstallable description.now bytes.now
        (record { handler = capsule.now.handler; held = program })) }
{
    SharedHeld::new(alloc, program_with(description, bytes, capsule, code))
}

/// The code that is in an image, or nothing if the bytes are too few.
fn code_of(image: &[u8]) -> &[u8] {
    if image.len() < IMAGE_HEAD {
        return &[];
    }
    &image[IMAGE_HEAD..]
}

/// Before which of the capsules, which are in their order, that of the bytes comes.
pub fn place_among(ready: &[ReadyCapsule], bytes: &[u8]) -> usize
    ensures { result ≤ length ready.now }
{
    ready.partition_point(|capsule| capsule.is_before(bytes))
}

/// The capsule at a place, if the bytes have its code.
fn with_code_at<'a>(
    description: &Description,
    ready: &'a [ReadyCapsule],
    place: usize,
    bytes: &[u8],
) -> Option<&'a ReadyCapsule>
    requires { All (IsReadyOn description.now) ready.now }
    ensures { IfSome result (λ capsule. IsReadyOn description.now capsule.now) }
{
    let _description = description;
    match ready.get(place) {
        Some(capsule) if capsule.has_code(bytes) => Some(capsule),
        _ => None,
    }
}

/// One of the capsules, which are in their order, whose code the bytes have, if there is one: that of these bytes, if it is there.
pub fn near<'a>(
    description: &Description,
    ready: &'a [ReadyCapsule],
    bytes: &[u8],
) -> Option<&'a ReadyCapsule>
    requires { All (IsReadyOn description.now) ready.now }
    ensures { IfSome result (λ capsule. IsReadyOn description.now capsule.now) }
{
    let place = place_among(ready, bytes);
    match with_code_at(description, ready, place, bytes) {
        Some(capsule) => Some(capsule),
        None if place == 0 => None,
        None => with_code_at(description, ready, place - 1, bytes),
    }
}
