//! Numbers that name the parts of a machine. Each is a position, from 0, in the list of its description.

/// A handler, of at most `HANDLERS_MAX`.
#[derive(Clone, Copy, PartialEq, Eq, Debug)]
pub struct HandlerId(pub u8);

/// A function, of at most `FUNCTIONS_MAX`.
#[derive(Clone, Copy)]
pub struct FunId(pub u8);

/// A shared variable, of at most `SHARED_MAX`.
#[derive(Clone, Copy)]
pub struct VarId(pub u8);

/// A buffer, of at most `BUFFERS_MAX`.
#[derive(Clone, Copy)]
pub struct BufId(pub u8);

/// A device, of at most `DEVICES_MAX`.
#[derive(Clone, Copy)]
pub struct DeviceId(pub u8);

/// A context, of at most `CONTEXTS_MAX`. Contexts are numbered in handler order: the first handler has the first ones.
#[derive(Clone, Copy)]
pub struct ContextId(pub u8);
