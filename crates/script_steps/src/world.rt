//! The plan of a world of nodes.

ghost use Rattle.std.specs.Prelude.{◌≡◌, ◌∷◌, ◌++◌, ◌<◌, [], length, MatchResult};

use mate_num::{FunId, HandlerId, Items, NoMemory, PacketBytes, Payload, Texts};
use std::alloc::Global;
use std::marker::Model;

/// What a world's script plans: nodes, the links between them, outside answers, and events in order of time.
#[derive(Drop)]
pub struct World {
    /// How many nodes there are: 1 to `NODES_MAX`, numbered from 0.
    pub nodes: u8,
    /// What the random streams start from.
    pub random: u64,
    /// The last time at which events are run, in ms: 1 to `HOUR`.
    pub until: u32,
    /// Whether a node keeps its versions to itself if it has heard them often enough.
    pub suppress: bool,
    pub links: Links,
    pub series: SeriesList,
    pub events: Plan,
    /// The names of the files of the injections.
    pub files: Texts,
}

/// The links of a world, in the order in which packets try them.
pub type Links = Items<Link>;

/// A link from one node to another.
#[derive(Clone, Copy)]
pub struct Link {
    pub from: u8,
    pub to: u8,
    /// How many of a thousand packets are lost: at most 1000.
    pub loss: u16,
}

/// The answers of a node's sensor, in the order of the calls; the last one goes on.
#[derive(Drop)]
pub struct Series {
    pub node: u8,
    /// A function that reads a sensor.
    pub fun: FunId,
    /// At least one value.
    pub values: Values,
}

/// The values of a series.
pub type Values = Items<i16>;

/// The planned events, in order of time.
pub type Plan = Items<Planned>;

/// What is planned for a node at a time in ms.
#[derive(Drop)]
pub struct Planned {
    pub time: u32,
    pub node: u8,
    pub what: What,
}

/// What happens to a node from outside. A `program` is the position of a file among those that the world names.
#[derive(Drop)]
pub enum What {
    /// Compile the file, and install it under this version, from 1 on.
    Inject {
        program: u32,
        handler: HandlerId,
        version: u32,
    },
    /// Post an event for the handler.
    Post {
        handler: HandlerId,
        payload: Payload,
    },
    /// Record what the variables and buffers hold.
    Show,
    /// Reset the node.
    Reset,
    /// The node hears these bytes, 1 to `PACKET_MAX`, which are no packet of the machine.
    Noise {
        bytes: PacketBytes,
    },
}

/// The series of a world. Contracts see the list.
#[derive(Drop)]
pub struct SeriesList {
    series: Vec<Series>,
}

impl Model for SeriesList {
    ghost use Rattle.std.specs.Prelude.{List};
    ghost use Rattle.script_steps.specs.declared.world.Series.{Series};

    ghost Value = { List Series };

    ghost view = { λ s. s.series.items };
}

impl SeriesList {
    ghost use Rattle.std.specs.Prelude.{slice_get};
    ghost use Rattle.std.specs.Option.{option_copied};
    ghost use Rattle.script_steps.specs.World.{with_values};

    /// No series. It takes no memory.
    pub fn new(alloc: Global) -> SeriesList
        ensures { result ≡ [] }
    {
        SeriesList {
            series: Vec::new(alloc),
        }
    }

    /// How many series there are.
    pub fn len(&self) -> usize
        ensures { result ≡ length self.now }
    {
        self.series.len()
    }

    /// The series at `index`, from 0; None exactly from the length on.
    pub fn get(&self, index: usize) -> Option<&Series>
        ensures { option_copied result ≡ slice_get self.now index }
    {
        self.series.get(index)
    }

    /// The series, in the order in which they were pushed.
    pub fn as_slice(&self) -> &[Series]
        ensures { result.now ≡ self.now }
    {
        self.series.as_slice()
    }

    /// Appends a series. `NoMemory` leaves the list as it was.
    pub fn push(&mut self, series: Series) -> Result<(), NoMemory>
        ensures { MatchResult result (λ _. self.new ≡ self.old ++ series ∷ []) (λ _. self.new ≡ self.old) }
    {
        self.series.push(series)?;
        Ok(())
    }

    /// Appends a value to the series at `index`. `NoMemory` leaves the list as it was.
    pub fn append(&mut self, index: usize, value: i16) -> Result<(), NoMemory>
        requires { index < length self.old }
        ensures { MatchResult result (λ _. self.new ≡ with_values index (value ∷ []) self.old) (λ _. self.new ≡ self.old) }
    {
        self.series[index].values.push(value)
    }
}
