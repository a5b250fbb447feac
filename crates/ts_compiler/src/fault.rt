//! Why a script has no code.

/// Why a script has no code. Numbers stop at 1,000,000,000, which no source within the parser's limits reaches.
#[derive(Clone, Copy)]
pub enum CompileFault {
    /// The script needs a stack of `need` values, but a machine has room for `STACK_MAX`.
    StackDepth { need: u32 },
    /// Its code takes `size` bytes, more than `CODE_MAX`. It is tested after `StackDepth`.
    TooLong { size: u32 },
}
