//! The words of the command line, as the programs take them.

ghost use Rattle.std.specs.Prelude.{◌≡◌, ◌⊎◌, IfErr};

use crate::refusal::Refusal;
use std::env;
use std::io::ErrorKind;
use std::rt::Env;

/// The words of the command line, without the program's own name. Words that aren't UTF-8 are refused as `Usage`. It
/// isn't inlined, so that the stack that it takes is given back before the command runs.
#[inline(never)]
pub fn words(rt: &(impl Env + AllocGlobal)) -> Result<Vec<String>, Refusal>
    ensures { IfErr result (λ r. (r ≡ Refusal.Usage) ⊎ (r ≡ Refusal.NoMemory)) }
{
    let args = match env::args(rt) {
        Ok(args) => args,
        Err(error) if error.kind() == ErrorKind::OutOfMemory => return Err(Refusal::NoMemory),
        Err(_) => return Err(Refusal::Usage),
    };
    let mut words = Vec::new(rt.alloc());
    for word in args.skip(1) {
        let Ok(()) = words.push(word) else {
            return Err(Refusal::NoMemory);
        };
    }
    Ok(words)
}
