//! Names and words of a report's records.

use mate_journal::VoidCause;
use mate_num::{FunId, HandlerId};
use vm_shape::Description;

/// The name of a handler.
pub fn handler_name(desc: &Description, handler: HandlerId) -> &str {
    match desc.handlers.as_slice().get(usize::from(handler.0)) {
        Some(handler) => handler.name.as_str(),
        None => "",
    }
}

/// The name of a function.
pub fn function_name(desc: &Description, function: FunId) -> &str {
    match desc.functions.as_slice().get(usize::from(function.0)) {
        Some(function) => function.name.as_str(),
        None => "",
    }
}

/// What a step of a script could not do, by the word of the report.
pub fn void_word(cause: VoidCause) -> &'static str {
    match cause {
        VoidCause::NotReady => "notready",
        VoidCause::NotWaiting => "notwaiting",
        VoidCause::NotNewer { held: _ } => "notnewer",
    }
}
