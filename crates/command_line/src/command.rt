//! The commands of the program.

ghost use Rattle.std.specs.Prelude.{◌≡◌, ◌≤◌, map, option_map, IfSome};
ghost use Rattle.std.specs.Char.{is_ascii_digit};
ghost use Rattle.std.specs.List.{list_all};
ghost use Rattle.command_line.specs.Commands.{task_held, line_said, task_of, node_task, sim_task, gen_task, table_task, compile_task, check_task, expand_task, feed_task, audit_task, runless_task, unflagged_task, version_said, number_said, is_counting};

use crate::CommandLine;
use crate::audit::Audit;
use crate::compilation::Compilation;
use crate::made_run::MadeRun;
use crate::script_run::ScriptRun;

/// A command, with its words.
#[derive(Clone, Copy)]
pub enum Command<'a> {
    /// Runs a node script.
    Node(ScriptRun<'a>),
    /// Runs the world of a script.
    Sim(ScriptRun<'a>),
    /// Runs the world of a number.
    Gen(MadeRun<'a>),
    /// Writes the opcode table of a machine: of the description in this file, or `builtin`.
    Table { machine: &'a str },
    /// Writes the image of a source's capsule.
    Compile(Compilation<'a>),
    /// Writes the text of a capsule; the file `capsule` has it in hexadecimal digits.
    Check { machine: &'a str, capsule: &'a str },
    /// Writes the plain script that a source with procedures expands to.
    Expand { source: &'a str },
    /// Writes what a new node of a machine answers to the capsules in the file `stream`, which holds the bytes of a serial line.
    Feed { machine: &'a str, stream: &'a str },
    /// Says whether a report shows serial behaviour.
    Audit(Audit<'a>),
}

/// The command of a line; None if its word is unknown, or the other words or flags are not those that the command takes.
pub fn command_of<'a>(line: &CommandLine<'a>) -> Option<Command<'a>>
    ensures { option_map task_held result ≡ task_of (line_said line.now) }
{
    let args = line.args.as_slice();
    if line.command == "node" {
        return node(args, line.fold, line.brief);
    }
    if line.command == "sim" {
        return sim(args, line.fold, line.brief);
    }
    if line.command == "gen" {
        return made(args, line.fold, line.brief);
    }
    runless(line.command, args, line.fold, line.brief)
}

/// The command of a word that runs no nodes.
fn runless<'a>(command: &str, args: &[&'a str], fold: bool, brief: bool) -> Option<Command<'a>>
    ensures { option_map task_held result ≡ runless_task command.now fold brief (map (λ w. w.now) args.now) }
{
    if command == "compile" && !brief {
        return compile(args, fold);
    }
    if command == "audit" && !brief {
        return audit(args, fold);
    }
    if brief || fold {
        return None;
    }
    unflagged(command, args)
}

/// The command of a word that takes no flag.
fn unflagged<'a>(command: &str, args: &[&'a str]) -> Option<Command<'a>>
    ensures { option_map task_held result ≡ unflagged_task command.now (map (λ w. w.now) args.now) }
{
    if command == "table" {
        return table(args);
    }
    if command == "check" {
        return check(args);
    }
    if command == "expand" {
        return expand(args);
    }
    if command == "feed" {
        return feed(args);
    }
    None
}

fn node<'a>(args: &[&'a str], fold: bool, brief: bool) -> Option<Command<'a>>
    ensures { option_map task_held result ≡ node_task fold brief (map (λ w. w.now) args.now) }
{
    let [machine, script] = args else {
        return None;
    };
    Some(Command::Node(ScriptRun {
        machine,
        script,
        fold,
        brief,
    }))
}

fn sim<'a>(args: &[&'a str], fold: bool, brief: bool) -> Option<Command<'a>>
    ensures { option_map task_held result ≡ sim_task fold brief (map (λ w. w.now) args.now) }
{
    let [machine, script] = args else {
        return None;
    };
    Some(Command::Sim(ScriptRun {
        machine,
        script,
        fold,
        brief,
    }))
}

fn made<'a>(args: &[&'a str], fold: bool, brief: bool) -> Option<Command<'a>>
    ensures { option_map task_held result ≡ gen_task fold brief (map (λ w. w.now) args.now) }
{
    let [number, machine] = args else {
        return None;
    };
    let number = number_of(number)?;
    Some(Command::Gen(MadeRun {
        number,
        machine,
        fold,
        brief,
    }))
}

fn table<'a>(args: &[&'a str]) -> Option<Command<'a>>
    ensures { option_map task_held result ≡ table_task (map (λ w. w.now) args.now) }
{
    let [machine] = args else {
        return None;
    };
    Some(Command::Table { machine })
}

fn compile<'a>(args: &[&'a str], fold: bool) -> Option<Command<'a>>
    ensures { option_map task_held result ≡ compile_task fold (map (λ w. w.now) args.now) }
{
    let [machine, handler, version, source] = args else {
        return None;
    };
    let version = version_of(version)?;
    Some(Command::Compile(Compilation {
        machine,
        handler,
        version,
        source,
        fold,
    }))
}

fn check<'a>(args: &[&'a str]) -> Option<Command<'a>>
    ensures { option_map task_held result ≡ check_task (map (λ w. w.now) args.now) }
{
    let [machine, capsule] = args else {
        return None;
    };
    Some(Command::Check { machine, capsule })
}

fn expand<'a>(args: &[&'a str]) -> Option<Command<'a>>
    ensures { option_map task_held result ≡ expand_task (map (λ w. w.now) args.now) }
{
    let [source] = args else {
        return None;
    };
    Some(Command::Expand { source })
}

fn feed<'a>(args: &[&'a str]) -> Option<Command<'a>>
    ensures { option_map task_held result ≡ feed_task (map (λ w. w.now) args.now) }
{
    let [machine, stream] = args else {
        return None;
    };
    Some(Command::Feed { machine, stream })
}

fn audit<'a>(args: &[&'a str], fold: bool) -> Option<Command<'a>>
    ensures { option_map task_held result ≡ audit_task fold (map (λ w. w.now) args.now) }
{
    let [machine, script, report] = args else {
        return None;
    };
    Some(Command::Audit(Audit {
        machine,
        script,
        report,
        fold,
    }))
}

/// A version in decimal digits, from 1 to 4294967295, with no sign and no 0 before it.
fn version_of(word: &str) -> Option<u32>
    ensures value { result ≡ version_said word.now }
    ensures low { IfSome result (λ version. 1 ≤ version) }
{
    if !is_counting(word.as_bytes()) {
        return None;
    }
    match word.parse::<u32>() {
        Ok(version) => Some(version),
        Err(_) => None,
    }
}

/// A number in decimal digits, below 2^64, with no sign, and with no 0 before it.
fn number_of(word: &str) -> Option<u64>
    ensures { result ≡ number_said word.now }
{
    if word == "0" {
        return Some(0);
    }
    if !is_counting(word.as_bytes()) {
        return None;
    }
    match word.parse::<u64>() {
        Ok(number) => Some(number),
        Err(_) => None,
    }
}

/// Whether the first is a digit from 1 to 9, and all others are digits.
fn is_counting(digits: &[u8]) -> bool
    ensures { result ≡ is_counting digits.now }
{
    match digits {
        [] => false,
        [first, rest @ ..] => b'1' <= *first && *first <= b'9' && are_digits(rest),
    }
}

fn are_digits(bytes: &[u8]) -> bool
    ensures { result ≡ list_all is_ascii_digit bytes.now }
{
    bytes.iter().all(|byte| byte.is_ascii_digit())
}
