//! A whole script, folded.

ghost use Rattle.std.specs.Prelude.{◌≡◌, IfOk};
ghost use Rattle.ts_checked.specs.Checked.{checked_shape, checked_tree};
ghost use Rattle.ts_fold.specs.Folded.{folded};
ghost use Rattle.ts_fold.specs.Laws.{RunsAs, UsesNoMore, TakesNoMore};

use crate::statements::block;
use mate_num::NoMemory;
use std::alloc::Global;
use ts_checked::Checked;

/// Folds a script: an operation on numbers becomes the number that it gives, an `if` whose test is a number becomes
/// the statements that it would run, and a `while` whose test is 0 goes. `/` and `%` by 0 stay, and so do all other
/// statements and calls, with their parts folded. The script must come from a source, whose limits of depth bound the
/// recursion. `NoMemory` comes only if memory for the new tree is refused.
pub fn fold(alloc: Global, script: &Checked) -> Result<Checked, NoMemory>
    ensures shape { IfOk result (λ new. checked_shape new ≡ checked_shape script.now) }
    ensures tree { IfOk result (λ new. checked_tree new ≡ folded (checked_tree script.now)) }

    // It runs as the script does, uses nothing more, and needs no more bytes and no deeper stack.
    ensures runs { IfOk result (λ new. RunsAs (checked_tree script.now) (checked_tree new)) }
    ensures uses { IfOk result (λ new. UsesNoMore (checked_shape script.now) (checked_tree script.now) (checked_tree new)) }
    ensures room { IfOk result (λ new. TakesNoMore (checked_tree script.now) (checked_tree new)) }
{
    let body = block(alloc, script.body())?;
    Ok(Checked::new(script.shape().copy(), body))
}
