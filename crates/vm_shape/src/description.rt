//! A machine's description.

ghost use Rattle.std.specs.Prelude.{◌≡◌, IsTrue};
ghost use Rattle.vm_shape.specs.Limits.{Parts, parts, is_valid};

use crate::function::Function;
use crate::handler::Handler;
use crate::settings::{RadioSet, TrickleSet};
use arrayvec::ArrayVec;
use mate_num::{
    BUFFERS_MAX, ContextId, DEVICES_MAX, FUNCTIONS_MAX, HANDLERS_MAX, HandlerId, Name, SHARED_MAX,
};

/// The handlers, functions, variables and settings of a machine. The number of one of its parts is
/// the position in its list.
///
/// Every description keeps the rules of a description's text: the lengths of its lists, the ranges of its
/// numbers, the form of its names, no name twice in a list (shared variables and buffers count as
/// one list), and a longest Trickle interval that is long enough for a round of all handlers' packets.
#[derive(Drop)]
pub struct Description {
    /// The machine's number, which its capsules and packets have.
    pub vm_id: u32,
    /// 1 to `HANDLERS_MAX` handlers, with at most `CONTEXTS_MAX` contexts in all.
    pub handlers: ArrayVec<Handler, HANDLERS_MAX>,
    pub functions: ArrayVec<Function, FUNCTIONS_MAX>,
    pub shared: ArrayVec<Name, SHARED_MAX>,
    pub buffers: ArrayVec<Name, BUFFERS_MAX>,
    pub devices: ArrayVec<Name, DEVICES_MAX>,
    /// How often an invocation may go back in its code: at most 1,000,000.
    pub turns: u32,
    /// How many instructions a context runs in one go: 1 to 10,000.
    pub quantum: u32,
    pub trickle: TrickleSet,
    pub radio: RadioSet,
    pub ghost valid: { IsTrue (is_valid (parts vm_id handlers.items functions.items shared.items buffers.items devices.items
        turns quantum trickle radio)) },
}

impl Description {
    ghost use Rattle.std.specs.Prelude.{◌<◌, ◌≤◌, length};
    ghost use Rattle.mate_num.specs.declared.bounds.TheConstants.{CONTEXTS_MAX};
    ghost use Rattle.vm_shape.specs.Contexts.{first_context, handler_of};
    ghost use Rattle.vm_shape.specs.Whole.{context_count};

    /// How many contexts the machine has: 1 to `CONTEXTS_MAX`.
    pub fn contexts(&self) -> u8
        ensures value { result ≡ context_count self.now }
        ensures low { 1 ≤ result }
        ensures high { result ≤ CONTEXTS_MAX }
    {
        self.contexts_before(self.handlers.len())
    }

    /// The first context of `handler`.
    pub fn first_context(&self, handler: HandlerId) -> ContextId
        requires { handler.0 < length self.now.handlers.items }
        ensures { result.0 ≡ first_context self.now.handlers.items handler.0 }
    {
        ContextId(self.contexts_before(handler.0 as usize))
    }

    /// The handler of `context`.
    pub fn handler_of(&self, context: ContextId) -> HandlerId
        requires { context.0 < context_count self.now }
        ensures value { result.0 ≡ handler_of self.now.handlers.items context.0 }
        ensures below { result.0 < length self.now.handlers.items }
    {
        let mut left = context.0;
        for (index, handler) in self.handlers.as_slice().iter().enumerate() {
            if left < handler.contexts {
                return HandlerId(index as u8);
            }
            left -= handler.contexts;
        }
        unreachable!()
    }

    /// The same description again. It takes no memory.
    pub fn copy(&self) -> Description
        ensures { result ≡ self.now }
    {
        Description {
            vm_id: self.vm_id,
            handlers: copy_of_handlers(&self.handlers),
            functions: copy_of_functions(&self.functions),
            shared: copy_of_names(&self.shared),
            buffers: copy_of_names(&self.buffers),
            devices: copy_of_names(&self.devices),
            turns: self.turns,
            quantum: self.quantum,
            trickle: self.trickle,
            radio: self.radio,
        }
    }

    fn contexts_before(&self, handlers: usize) -> u8
        requires { handlers ≤ length self.now.handlers.items }
        ensures { result ≡ first_context self.now.handlers.items handlers }
    {
        let mut contexts = 0;
        for handler in &self.handlers.as_slice()[..handlers] {
            contexts += handler.contexts;
        }
        contexts
    }
}

fn copy_of_handlers(handlers: &ArrayVec<Handler, HANDLERS_MAX>) -> ArrayVec<Handler, HANDLERS_MAX>
    ensures { result ≡ handlers.now }
{
    let mut copy: ArrayVec<Handler, HANDLERS_MAX> = ArrayVec::new();
    for handler in handlers.as_slice() {
        copy.push(handler.copy());
    }
    copy
}

fn copy_of_functions(
    functions: &ArrayVec<Function, FUNCTIONS_MAX>,
) -> ArrayVec<Function, FUNCTIONS_MAX>
    ensures { result ≡ functions.now }
{
    let mut copy: ArrayVec<Function, FUNCTIONS_MAX> = ArrayVec::new();
    for function in functions.as_slice() {
        copy.push(function.copy());
    }
    copy
}

fn copy_of_names<const N: usize>(names: &ArrayVec<Name, N>) -> ArrayVec<Name, N>
    ensures { result ≡ names.now }
{
    let mut copy: ArrayVec<Name, N> = ArrayVec::new();
    for name in names.as_slice() {
        copy.push(name.copy());
    }
    copy
}
