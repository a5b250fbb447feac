//! The program that an install names.

ghost use Rattle.std.specs.Prelude.{◌≡◌, is_some, IfSome};
ghost use Rattle.std.specs.List.{list_any};
ghost use Rattle.node_programs.specs.Sources.{is_held_as};
ghost use Rattle.audit_programs.specs.Naming.{IsHeldAt};

use mate_journal::{StoredProgram, StoredPrograms};
use mate_num::{HandlerId, Image};

/// The position of a program with this handler, version and image; None exactly if there is none. The search begins at `from`, and
/// goes on at the first program: journals mostly install programs in their order, so the next one that is sought comes soon after
/// the last one that was found.
pub fn find_program(
    programs: &StoredPrograms,
    from: usize,
    handler: HandlerId,
    version: u32,
    image: &Image,
) -> Option<usize>
    ensures held { IfSome result (IsHeldAt (record { handler = handler; version = version; image = image.now }) programs.now) }
    ensures any { is_some result ≡ list_any (is_held_as record { handler = handler; version = version; image = image.now }) programs.now }
{
    let list = programs.as_slice();
    let (before, behind) = list.split_at(from.min(list.len()));
    match place_in(behind, handler, version, image) {
        Some(place) => Some(before.len() + place),
        None => place_in(before, handler, version, image),
    }
}

/// The position of the first of these programs with this handler, version and image.
fn place_in(
    programs: &[StoredProgram],
    handler: HandlerId,
    version: u32,
    image: &Image,
) -> Option<usize>
    ensures held { IfSome result (IsHeldAt (record { handler = handler; version = version; image = image.now }) programs.now) }
    ensures any { is_some result ≡ list_any (is_held_as record { handler = handler; version = version; image = image.now }) programs.now }
{
    for place in 0..programs.len() {
        if is_held_as(&programs[place], handler, version, image) {
            return Some(place);
        }
    }
    None
}

/// Whether the program has this handler, version and image. Images are compared last.
fn is_held_as(program: &StoredProgram, handler: HandlerId, version: u32, image: &Image) -> bool
    ensures { result ≡ is_held_as (record { handler = handler; version = version; image = image.now }) program.now }
{
    handler.0 == program.handler.0
        && (version == program.version && image.as_slice() == program.image.as_slice())
}
