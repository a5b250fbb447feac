//! A world between its events: the radio, the nodes, and how many records there are.

ghost use Rattle.std.specs.Prelude.{◌≡◌, ◌<◌, ◌≤◌, ◌∷◌, [], List, length, slice_get, Some, All, IfOk, ◌⊎◌};
ghost use Rattle.mate_num.specs.declared.bounds.TheConstants.{NODES_MAX};
ghost use Rattle.script_steps.specs.World.{IsRightWorld};
ghost use Rattle.mate_journal.specs.Log.{IsEmpty, IsSameLog};
ghost use Rattle.mate_journal.specs.OpenLog.{gone_of};
ghost use Rattle.mate_journal.specs.Pace.{Pace};
ghost use Rattle.node_open.specs.View.{HasPace};
ghost use Rattle.mate_journal.specs.declared.program.Program.{Program as ProgramOfFile};
ghost use Rattle.mate_journal.specs.declared.air.Air.TheVariants as air;
ghost use Rattle.world_air.specs.Air.{aired_at};
ghost use Rattle.world_air.specs.Changes.{AddsToAir};
ghost use Rattle.world_air.specs.Starting.{beginning, first_items};
ghost use Rattle.world_state.specs.Motes.{BeginsMote};
ghost use Rattle.world_state.specs.declared.mote.Mote.{Mote as MoteState};
ghost use Rattle.world_run_laws.specs.Coming.{code_world};
ghost use Rattle.world_state.specs.Starting.{HaveBegun};
ghost use Rattle.world_state.specs.Running.{StandsAfter};
ghost use Rattle.world_state.specs.Ranging.{AreInRange};
ghost use Rattle.world_state.specs.Keeping.{IsWhole, IsFew, LetsGo, LetsGoAsTold};
ghost use Rattle.world_state.specs.Telling.{LogsAreKept};

use crate::mote::Mote;
use journal_laws::air_is_in_range_from;
use mate_journal::{NodeLog, RECORDS_MAX, StoredPrograms};
use mate_num::NoMemory;
use node_open::{OpenNode, SharedMachine};
use packet_codec::Packet;
use radio_sim::{Radio, SharedEvent};
use script_steps::World;
use std::alloc::Global;
use vm_shape::Description;
use world_air::{begin_node, schedule_lines};

/// What becomes of what was recorded once it is written.
#[derive(Clone, Copy)]
pub enum Written {
    Kept,
    Forgotten,
}

/// A world between two of its events.
#[derive(Drop)]
pub struct Simulation {
    pub radio: Radio,
    pub motes: Vec<Mote>,
    /// How many records there are, in journals and of the air.
    pub records: usize,
}

impl Simulation {
    /// The world before its first event: the lines of the script are due, and for each node the point and the end of its
    /// first interval and its first periods. The nodes share the machine, and the programs that they will install, or the first of many.
    pub fn start(
        alloc: Global,
        desc: &Description,
        world: &World,
        programs: &StoredPrograms,
    ) -> Result<Simulation, NoMemory>
        requires { IsRightWorld desc.now world.now }
        ensures stands { IfOk result (λ sim. (ps : List ProgramOfFile) → StandsAfter (code_world desc.now world.now ps) 0 sim) }
        ensures whole { IfOk result IsWhole }
        ensures empty { IfOk result (λ sim. All (λ (m : MoteState). IsEmpty m.node.log) sim.motes.items) }
        ensures ranges { IfOk result AreInRange }
    {
        let mut radio = Radio::new(alloc, world, desc)?;
        schedule_lines(&mut radio, world)?;
        let machine = SharedMachine::with_programs(alloc, desc, programs)?;
        let motes = begin_motes(alloc, &machine, world, &mut radio)?;
        air_is_in_range_from(radio.air(), 0);
        Ok(Simulation {
            radio,
            motes,
            records: usize::from(world.nodes),
        })
    }

    /// Behind an event of the node, if a next one may come: where the node had the spare room for it, lets go what it recorded, and has the
    /// room back.
    pub fn leave(&mut self, number: u8, trades: bool, room: &mut NodeLog)
        requires node { number < length self.old.motes.items }
        requires few { self.old.records < 1000000 → IsFew self.old number }
        requires empty { IsEmpty room.old }
        ensures leaves { (self.new ≡ self.old) ⊎ LetsGo self.old self.new number }
        ensures kept { LogsAreKept self.old.motes.items → LogsAreKept self.new.motes.items }
        ensures empty { IsEmpty room.new }
    {
        if self.records >= RECORDS_MAX {
            return;
        }
        if !trades {
            return;
        }
        self.let_go(number, Written::Forgotten, trades, room);
        let _kept = self.motes[usize::from(number)].node.kept();
    }

    /// Before an event of the node, or behind it: forgets what the node and the radio recorded, if that is to be forgotten, and then trades
    /// the node's room for the spare one, if it trades.
    pub fn let_go(&mut self, number: u8, written: Written, trades: bool, room: &mut NodeLog)
        requires node { number < length self.old.motes.items }
        requires log { (mote : MoteState) → slice_get self.old.motes.items number ≡ Some mote → length mote.node.log.entries < 3999999999 }
        requires air { length self.old.radio.air < 4000000000 }
        requires empty { IsEmpty room.old }
        ensures lets_go { LetsGoAsTold written self.old self.new number }
        ensures empty { IsEmpty room.new }
    {
        match written {
            Written::Kept => {}
            Written::Forgotten => {
                let node = &mut self.motes[usize::from(number)].node;
                forget_told(node, trades, room);
                self.radio.forget();
            }
        }
    }
}

/// Forgets what the node recorded, and trades its room for the spare one, if it trades.
fn forget_told(node: &mut OpenNode, trades: bool, room: &mut NodeLog)
    requires few { length node.old.log.entries < 4000000000 }
    requires empty { IsEmpty room.old }
    ensures description { node.new.description ≡ node.old.description }
    ensures log { IsSameLog node.new.log node.old.log }
    ensures gone { node.new.gone ≡ gone_of node.old.log }
    ensures pace { (p : Pace) → HasPace node.old p → HasPace node.new p }
    ensures empty { IsEmpty room.new }
{
    node.forget();
    if !trades {
        return;
    }
    trade_room(node, room);
}

/// Trades the room of the node, which forgot all, for the spare one. It isn't inlined: a log is long, and most events need no room.
#[inline(never)]
fn trade_room(node: &mut OpenNode, room: &mut NodeLog)
    requires gone { node.old.gone ≡ gone_of node.old.log }
    requires empty { IsEmpty room.old }
    ensures same { node.new ≡ record node.old { log = record node.old.log { spare = room.old.spare } } }
    ensures pace { (p : Pace) → HasPace node.old p → HasPace node.new p }
    ensures empty { IsEmpty room.new }
{
    node.trade(room);
}

/// The nodes of the world before its first event, in order: the first events of each are due. It stands alone, since a node is large, and
/// the stack is deepest where programs are made ready for them.
#[inline(never)]
fn begin_motes(
    alloc: Global,
    machine: &SharedMachine,
    world: &World,
    radio: &mut Radio,
) -> Result<Vec<Mote>, NoMemory>
    requires nodes { world.now.nodes ≤ NODES_MAX }
    requires now { radio.old.agenda.now ≡ 0 }
    ensures { IfOk result (λ motes. (ps : List ProgramOfFile)
        → HaveBegun (code_world machine.now world.now ps) world.now.nodes radio.old radio.new motes.items) }
{
    let mut motes = Vec::with_capacity(alloc, usize::from(world.nodes))?;
    for node in 0..world.nodes {
        motes.push(begin_mote(alloc, machine, world.random, node, radio)?)?;
    }
    Ok(motes)
}

/// The node before the first event: its first events are due.
fn begin_mote(
    alloc: Global,
    machine: &SharedMachine,
    random: u64,
    node: u8,
    radio: &mut Radio,
) -> Result<Mote, NoMemory>
    requires node { node < NODES_MAX }
    requires now { radio.old.agenda.now ≡ 0 }
    ensures begins { IfOk result (BeginsMote machine.now random node) }
    ensures adds { IfOk result (λ mote. AddsToAir radio.old radio.new (aired_at beginning node (air.Interval mote.timer.running.length)
        ∷ []) (first_items machine.now node mote.timer)) }
{
    let mote = Mote::new(alloc, machine, random, node)?;
    begin_node(radio, machine.description(), node, &mote.timer)?;
    Ok(mote)
}

/// Whether a node may record something in the event. Of its timer's events and of most packets it records nothing, so it needs no
/// room then. No contract rests on it: a node makes room of its own if it has none.
pub fn may_tell(desc: &Description, event: &SharedEvent) -> bool {
    match event {
        SharedEvent::Planned(_) => true,
        SharedEvent::Period { .. } => true,
        SharedEvent::Fire { .. } => false,
        SharedEvent::Expire { .. } => false,
        SharedEvent::Pump { .. } => false,
        SharedEvent::Due { .. } => true,
        SharedEvent::Deliver { bytes, .. } => match bytes.packet(desc) {
            Some(Packet::Vector { .. }) => false,
            Some(Packet::Status { .. }) => false,
            Some(Packet::Fragment { .. }) => true,
            Some(Packet::App { .. }) => true,
            None => true,
        },
    }
}
