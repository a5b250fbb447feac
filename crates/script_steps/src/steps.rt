//! The steps of a node script.

ghost use Rattle.std.specs.Prelude.{◌≡◌, ◌∷◌, ◌++◌, [], OnErr, OnOk};
ghost use Rattle.script_steps.specs.declared.steps.Step.{Step};

use mate_num::{ContextId, HandlerId, Items, NoMemory, Payload, Text, Texts};
use std::alloc::Global;
use std::marker::Model;

/// What a node is to do next. A `program` is the position of a file among those that the script names.
#[derive(Drop)]
pub enum Step {
    /// Compile the file, and install it as this version, 1 or more.
    Install {
        handler: HandlerId,
        version: u32,
        program: u32,
    },
    /// Install the capsule in the file.
    Load {
        program: u32,
    },
    /// Post an event for the handler.
    Post {
        handler: HandlerId,
        payload: Payload,
    },
    /// Give the context a turn of at most `n` instructions, from 1 to 1,000,000.
    Step {
        ctx: ContextId,
        n: u32,
    },
    /// Give turns until no invocation is ready: each waits or has ended.
    Run,
    /// Answer the call for which the context waits.
    Answer {
        ctx: ContextId,
        value: i16,
    },
    /// Record what the variables and buffers hold.
    Show,
    /// Reset the node.
    Reset,
}

// A script has up to hundreds of thousands of steps.
const _: () = prove!(size_of::<Step>() <= 40);

/// The steps of a script in order, and the names of the files of its installs and loads, in order.
#[derive(Drop)]
pub struct Steps {
    alloc: Global,
    steps: Items<Step>,
    files: Texts,
}

impl Model for Steps {
    ghost use Rattle.script_steps.specs.Steps.{NodeScript};

    ghost Value = { NodeScript };

    ghost view = { λ s. record { steps = s.steps; files = s.files } };
}

impl Steps {
    /// No steps and no files. It takes no memory.
    pub fn new(alloc: Global) -> Steps
        ensures steps { result.steps ≡ [] }
        ensures files { result.files ≡ [] }
    {
        Steps {
            alloc,
            steps: Items::new(alloc),
            files: Items::new(alloc),
        }
    }

    /// The steps, in the order in which they were pushed.
    pub fn steps(&self) -> &[Step]
        ensures { result.now ≡ self.now.steps }
    {
        self.steps.as_slice()
    }

    /// The names of the files, in the order in which they were named.
    pub fn files(&self) -> &[Text]
        ensures { result.now ≡ self.now.files }
    {
        self.files.as_slice()
    }

    /// Appends a step. `NoMemory` leaves the script as it was.
    pub fn push(&mut self, step: Step) -> Result<(), NoMemory>
        ensures steps { OnOk result (self.new.steps ≡ self.old.steps ++ step ∷ []) }
        ensures files { OnOk result (self.new.files ≡ self.old.files) }
        ensures refused { OnErr result (self.new ≡ self.old) }
    {
        self.steps.push(step)
    }

    /// Appends the name of a file. `NoMemory` leaves the script as it was.
    pub fn name(&mut self, file: &str) -> Result<(), NoMemory>
        ensures steps { OnOk result (self.new.steps ≡ self.old.steps) }
        ensures files { OnOk result (self.new.files ≡ self.old.files ++ file.now ∷ []) }
        ensures refused { OnErr result (self.new ≡ self.old) }
    {
        let text = Text::of(self.alloc, file)?;
        self.files.push(text)
    }
}
