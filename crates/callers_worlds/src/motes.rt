//! What comes to a node with its timer and its exchange.

ghost use Rattle.std.specs.Prelude.{◌≡◌, ◌≤◌, ℕ, List, [], length};
ghost use Rattle.arrayvec.specs.ArrayVec.{ArrayVec};
ghost use Rattle.mate_num.specs.declared.bounds.TheConstants.{HOUR};
ghost use Rattle.packet_codec.specs.Packet.{IsRightPacket};
ghost use Rattle.packet_codec.specs.declared.packet.Packet.TheVariants.{Vector};
ghost use Rattle.trickle_timer.specs.Intervals.{Consistent, at_point};
ghost use Rattle.trickle_timer.specs.declared.timer.Fire.TheVariants.{Keep};
ghost use Rattle.capsule_exchange.specs.Happenings.{Happening, held_versions};
ghost use Rattle.capsule_exchange.specs.Knowledge.{knowledge};
ghost use Rattle.world_state.specs.Motes.{timed};

use mate_num::Stamp;
use packet_codec::Packet;
use world_state::{Effect, Mote};

pub fn a_silent_point_sends_nothing(mote: &mut Mote, suppress: bool) -> Effect
    ensures { (n : ℕ) (hs : List Happening) → mote.old.exchange ≡ knowledge n hs
        → at_point mote.old.timer.set mote.old.timer.running suppress ≡ Keep → result.sends.items ≡ [] }
{
    let mut effect = Effect::none();
    mote.fire(suppress, &mut effect);
    effect
}

pub fn a_consistent_vector_counts(mote: &mut Mote, packet: &Packet, at: Stamp) -> Effect
    requires right { IsRightPacket (length mote.old.exchange.handlers) packet.now }
    requires hour { at.time ≤ HOUR }
    requires within { mote.old.timer.running.begin ≤ at.time }
    ensures { (n : ℕ) (hs : List Happening) (versions : ArrayVec ℕ) → mote.old.exchange ≡ knowledge n hs → packet.now ≡ Vector versions
        → versions.items ≡ held_versions n hs
        → mote.new.timer ≡ timed mote.old.timer at.time Consistent }
{
    let mut effect = Effect::none();
    mote.hear_vector(packet, at, &mut effect);
    effect
}
