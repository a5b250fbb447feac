//! Handlers, functions and contexts, as a report names them.

ghost use Rattle.std.specs.Prelude.{◌≡◌, ◌<◌, length, IfSome};
ghost use Rattle.std.specs.List.{position};
ghost use Rattle.std.specs.Str.{bytes_eq};
ghost use Rattle.report_line_reader.specs.Names.{name_of_handler, name_of_function, handler_of, function_of, context_of};

use crate::numbers::below;
use mate_num::{ContextId, FunId, HandlerId};
use vm_shape::{Description, Function, Handler};

fn handler_place(handlers: &[Handler], word: &[u8]) -> Option<usize>
    ensures value { result ≡ position (λ h. bytes_eq (name_of_handler h) word.now) handlers.now }
    ensures within { IfSome result (λ place. place < length handlers.now) }
{
    handlers
        .iter()
        .position(|handler| handler.name.as_bytes() == word)
}

fn function_place(functions: &[Function], word: &[u8]) -> Option<usize>
    ensures value { result ≡ position (λ f. bytes_eq (name_of_function f) word.now) functions.now }
    ensures within { IfSome result (λ place. place < length functions.now) }
{
    functions
        .iter()
        .position(|function| function.name.as_bytes() == word)
}

/// The handler of that name.
pub fn handler_of(desc: &Description, word: &[u8]) -> Option<HandlerId>
    ensures { result ≡ handler_of desc.now word.now }
{
    let place = handler_place(desc.handlers.as_slice(), word)?;
    Some(HandlerId(place as u8))
}

/// The function of that name.
pub fn function_of(desc: &Description, word: &[u8]) -> Option<FunId>
    ensures { result ≡ function_of desc.now word.now }
{
    let place = function_place(desc.functions.as_slice(), word)?;
    Some(FunId(place as u8))
}

/// The context of that number.
pub fn context_of(desc: &Description, word: &[u8]) -> Option<ContextId>
    ensures { result ≡ context_of desc.now word.now }
{
    let number = below(word, desc.contexts() as u64)?;
    Some(ContextId(number as u8))
}
