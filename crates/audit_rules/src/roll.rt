//! The roll: what is installed, and who is live.

ghost use Rattle.std.specs.Prelude.{◌≡◌, ◌<◌, ◌++◌, ◌∷◌, [], length, filter, OnOk};
ghost use Rattle.mate_num.specs.declared.bounds.TheConstants.{HANDLERS_MAX};
ghost use Rattle.mate_journal.specs.Journal.{journal_entry};
ghost use Rattle.mate_journal.specs.Log.{Log};
ghost use Rattle.audit_rules.specs.Roll as told;
ghost use Rattle.audit_rules.specs.Views.{keeps_seat, HasHandlerBelow, roll_in};

use crate::phase::Phase;
use crate::seat::{Seat, answer, move_to};
use mate_journal::Entry;
use mate_num::{Calls, HANDLERS_MAX, NoMemory, copy_of};
use std::alloc::Global;

/// What is installed for a handler: a version, and the position of its image in the log.
#[derive(Clone, Copy)]
pub struct InstalledImage {
    pub version: u32,
    pub image: u32,
}

/// How many invocations were posted, what is installed for each handler, and the live invocations in the order of their posts.
#[derive(Drop)]
pub struct Roll {
    pub posts: u32,
    pub installed: [Option<InstalledImage>; HANDLERS_MAX],
    pub seats: Vec<Seat>,
}

/// Whoever has this number leaves; the others keep their seats.
fn leave(seats: &mut Vec<Seat>, number: u32)
    ensures { seats.new.items ≡ filter (keeps_seat number) seats.old.items }
{
    seats.retain(|s| s.number != number);
}

impl Roll {
    /// Nobody is live, and nothing is installed.
    pub fn nobody(alloc: Global) -> Roll
        ensures { (l : Log) → roll_in l.images result ≡ told.nobody }
    {
        Roll {
            posts: 0,
            installed: [None; HANDLERS_MAX],
            seats: Vec::new(alloc),
        }
    }

    /// Reads one more entry.
    pub fn hear(&mut self, alloc: Global, entry: &Entry) -> Result<(), NoMemory>
        requires { HasHandlerBelow HANDLERS_MAX entry.now }
        ensures { (l : Log) → OnOk result (roll_in l.images self.new
            ≡ told.rolled (roll_in l.images self.old) (journal_entry l entry.now)) }
    {
        match entry {
            Entry::Post {
                inv,
                handler,
                ctx,
                payload,
            } => {
                let seat = Seat {
                    number: *inv,
                    handler: *handler,
                    context: *ctx,
                    held: self.installed[usize::from(handler.0)],
                    payload: copy_of(payload),
                    calls: Calls::new(alloc),
                    phase: Phase::Queued,
                };
                self.seats.push(seat)?;
                self.posts = *inv;
            }
            Entry::Start { inv } => move_to(self.seats.as_mut_slice(), *inv, &Phase::Ready),
            Entry::Ask { inv, fun, args } => {
                let phase = Phase::Waiting {
                    fun: *fun,
                    args: copy_of(args),
                };
                move_to(self.seats.as_mut_slice(), *inv, &phase);
            }
            Entry::Answer { inv, value } => answer(self.seats.as_mut_slice(), *inv, value)?,
            Entry::Halt { inv } => leave(&mut self.seats, *inv),
            Entry::Fault { inv, kind: _ } => leave(&mut self.seats, *inv),
            Entry::Install {
                handler,
                version,
                image,
            } => {
                self.installed[usize::from(handler.0)] = Some(InstalledImage {
                    version: *version,
                    image: *image,
                });
                self.seats.clear();
            }
            Entry::Reset => self.seats.clear(),
            _ => {}
        }
        Ok(())
    }
}
