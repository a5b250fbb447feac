//! The handlers of a machine.

ghost use Rattle.std.specs.Prelude.{◌≡◌};

use mate_num::Name;

/// What invokes a handler.
#[derive(Clone, Copy, Default)]
pub enum HandlerKind {
    /// Posts alone.
    #[default]
    Plain,
    /// A timer: the handler is posted every `period` ms, from 1 to 3,600,000.
    Timer { period: u32 },
    /// Radio messages of other nodes.
    Receive,
    /// Its own install, once.
    Once,
}

/// A handler: one script, which runs in each of its contexts.
#[derive(Default, Drop)]
pub struct Handler {
    pub name: Name,
    pub kind: HandlerKind,
    /// How many invocations of it may be live at once: 1 to 4.
    pub contexts: u8,
}

impl Handler {
    /// A copy of the handler. It takes no memory.
    pub fn copy(&self) -> Handler
        ensures { result ≡ self.now }
    {
        Handler {
            name: self.name.copy(),
            kind: self.kind,
            contexts: self.contexts,
        }
    }
}
