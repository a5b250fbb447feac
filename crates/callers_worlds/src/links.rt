//! Links of a world's radio, and what is cancelled there.

ghost use Rattle.std.specs.Prelude.{◌≡◌, ◌∷◌, ◌++◌, [], IfOk};
ghost use Rattle.mate_journal.specs.declared.air.Air.TheVariants as air_kind;
ghost use Rattle.trickle_timer.specs.Intervals.{stream, lcg_word};

use mate_journal::Airs;
use mate_num::NoMemory;
use radio_sim::wire::{Sending, Wire, Wires};
use radio_sim::{Cancel, SharedPacket};
use rand_pcg::Lcg64Xsh32;
use script_steps::Link;
use std::alloc::Global;
use std::collections::VecDeque;

pub fn a_pump_is_no_timer() -> u16
    ensures { result ≡ 259 }
{
    Cancel::Pump(3).number()
}

/// The streams of links come after those of 64 nodes.
pub fn the_first_link_has_the_stream_behind_the_nodes(random: u64, link: Link) -> u32
    ensures { result ≡ lcg_word (stream random 64) 0 }
{
    Wire::new(random, 0, link).word
}

/// The links aren't sorted by the nodes at their ends.
pub fn links_keep_their_order(alloc: Global, first: Wire, second: Wire) -> Result<Wires, NoMemory>
    ensures { IfOk result (λ wires. wires ≡ first ∷ second ∷ []) }
{
    let mut wires = Wires::new(alloc);
    wires.push(first)?;
    wires.push(second)?;
    Ok(wires)
}

/// A link that loses `loss` of a thousand packets, and its next word.
fn a_link(loss: u16, word: u32) -> Wire
    ensures link { result.link ≡ 0 }
    ensures to { result.to ≡ 9 }
    ensures loss { result.loss ≡ loss }
    ensures word { result.word ≡ word }
{
    Wire {
        link: 0,
        to: 9,
        loss,
        word,
        words: Lcg64Xsh32::new(1, 2),
    }
}

pub fn a_word_at_the_loss_is_carried(
    alloc: Global,
    sending: Sending,
    packet: &SharedPacket,
    air: &mut Airs,
) -> Result<usize, NoMemory>
    ensures { IfOk result (λ carried. carried ≡ 1) }
{
    let mut wires = Wires::new(alloc);
    wires.push(a_link(300, 5300))?;
    let mut carried = VecDeque::new(alloc);
    wires.carry(sending, packet, air, &mut carried)?;
    Ok(carried.len())
}

pub fn a_loss_names_the_end_of_the_link(
    alloc: Global,
    sending: Sending,
    packet: &SharedPacket,
    air: &mut Airs,
) -> Result<(), NoMemory>
    ensures { IfOk result (λ _. air.new ≡ air.old
        ++ record { stamp = sending.at; node = sending.node; air = air_kind.Lost sending.number 9 } ∷ []) }
{
    let mut wires = Wires::new(alloc);
    wires.push(a_link(300, 5299))?;
    let mut carried = VecDeque::new(alloc);
    wires.carry(sending, packet, air, &mut carried)
}
