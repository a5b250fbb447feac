//! The laws of the translation. Each is the contract of a function that does nothing.

ghost use Rattle.std.specs.Prelude.{◌≡◌, ◌≤◌, IsTrue};
ghost use Rattle.mate_num.specs.declared.bounds.TheConstants.{STACK_MAX};
ghost use Rattle.mate_num.specs.declared.shape.Shape.{Shape};
ghost use Rattle.ts_checked.specs.Right.{is_right};
ghost use Rattle.ts_checked.specs.Statement.{Block};
ghost use Rattle.ts_semantics.specs.Laws.{RunsAsItsScript, UsesAsItsScript, IsVerifiedScript, IsEncodable};
ghost use Rattle.ts_semantics.specs.Translation.{script_need};

/// The code of a script that is right for a machine and needs a stack of at most `STACK_MAX` values runs as the script does:
/// whatever the store, the message, the answers and the turns are, the end, the store and the calls are the same.
pub fn code_runs_as_its_script()
    ensures { (shape : Shape) (tree : Block) → IsTrue (is_right shape tree) → script_need tree ≤ STACK_MAX → RunsAsItsScript shape tree }
{}

/// The code of a script reads and writes exactly what the script does.
pub fn code_uses_as_its_script()
    ensures { (shape : Shape) (tree : Block) → UsesAsItsScript shape tree }
{}

/// The code of a script that is right for a machine and needs a stack of at most `STACK_MAX` values is verified.
pub fn code_is_verified()
    ensures { (shape : Shape) (tree : Block) → IsTrue (is_right shape tree) → script_need tree ≤ STACK_MAX → IsVerifiedScript shape tree }
{}

/// The instructions of a right script are in the machine's table, and take as many bytes as the script's size says.
pub fn code_is_encodable()
    ensures { (shape : Shape) (tree : Block) → IsTrue (is_right shape tree) → IsEncodable shape tree }
{}
