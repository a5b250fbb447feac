//! The commands that words name.

ghost use Rattle.std.specs.Prelude.{◌≡◌, [], ◌∷◌, codes, Some, None, true, false, option_map};
ghost use Rattle.command_line.specs.Commands.{Compile, line_said, task_held};

use command_line::{Command, CommandLine, command_of};

pub fn compile_is_never_brief<'a>(line: &CommandLine<'a>) -> Option<Command<'a>>
    requires { line_said line.now ≡ record {
      brief = true;
      fold = false;
      command = codes "compile";
      args = codes "builtin" ∷ codes "main"
          ∷ codes "1" ∷ codes "f" ∷ [];
    } }
    ensures { option_map task_held result ≡ None }
{
    command_of(line)
}

/// A line that is refused only because of two flags would be taken.
pub fn a_table_takes_no_flag<'a>(line: &CommandLine<'a>) -> Option<Command<'a>>
    requires { line_said line.now ≡ record { brief = true; fold = false; command = codes "table"; args = codes "builtin" ∷ [] } }
    ensures { option_map task_held result ≡ None }
{
    command_of(line)
}

pub fn a_source_is_not_folded_unasked<'a>(line: &CommandLine<'a>) -> Option<Command<'a>>
    requires { line_said line.now ≡ record {
      brief = false;
      fold = false;
      command = codes "compile";
      args = codes "builtin" ∷ codes "main"
          ∷ codes "1" ∷ codes "f" ∷ [];
    } }
    ensures { option_map task_held result ≡ Some (Compile false (codes "builtin") (codes "main") 1 (codes "f")) }
{
    command_of(line)
}

pub fn no_version_begins_with_0<'a>(line: &CommandLine<'a>) -> Option<Command<'a>>
    requires { line_said line.now ≡ record {
      brief = false;
      fold = false;
      command = codes "compile";
      args = codes "builtin" ∷ codes "main"
          ∷ codes "01" ∷ codes "f" ∷ [];
    } }
    ensures { option_map task_held result ≡ None }
{
    command_of(line)
}
