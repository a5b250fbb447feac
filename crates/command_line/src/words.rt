//! From words to flags, a command and its arguments.

ghost use Rattle.std.specs.Prelude.{◌≡◌, false, map, string_bytes, unwrap_or, codes, [], IfOk, IfErr};
ghost use Rattle.clap.specs.Words.{app_of, found_of, rows_of, rule_of, kind_of, all_of};
ghost use Rattle.command_line.specs.declared.words.WordsFault.TheVariants.{NoMemory};
ghost use Rattle.command_line.specs.Words.{FindsLine, FindsMatches, ReadsLine, TellsWordsFault, mate_command, flagged_app, flag, command_word, other_words, is_given};

use clap::error::ErrorKind;
use clap::parser::ValueSource;
use clap::{Arg, ArgAction, ArgMatches, Command, Error};
use std::alloc::{AllocError, Global};

/// What the words of a command line say.
#[derive(Drop)]
pub struct CommandLine<'a> {
    /// Whether `--brief` is among them.
    pub brief: bool,
    /// Whether `--fold` is among them.
    pub fold: bool,
    /// The first word that is no flag.
    pub command: &'a str,
    /// The words after it that are no flags, in order.
    pub args: Vec<&'a str>,
}

/// Why words are not read.
#[derive(Clone, Copy)]
pub enum WordsFault {
    /// They aren't a command and flags: an unknown flag, one that is given twice or with a value, or no command.
    NotTaken,
    NoMemory,
}

impl From<AllocError> for WordsFault {
    ghost use Rattle.command_line.specs.declared.words.WordsFault.TheVariants.{NoMemory};

    ghost from_gives = { λ _ e. e ≡ NoMemory };

    fn from(_error: AllocError) -> WordsFault {
        WordsFault::NoMemory
    }
}

/// Reads the words, without the program's own name. A flag may come anywhere before `--`; after `--` all words are
/// taken as they are. Before it, any other word that begins with `-` and isn't `-` alone is refused.
#[inline(never)]
pub fn read<'a>(alloc: Global, words: &'a [String]) -> Result<CommandLine<'a>, WordsFault>
    ensures { ReadsLine (map string_bytes words.now) result }
{
    match matches_of(alloc, words) {
        Ok(matches) => line_in(alloc, &matches),
        Err(fault) => Err(fault),
    }
}

/// What `clap` finds in the words.
fn matches_of<'a>(alloc: Global, words: &'a [String]) -> Result<ArgMatches<'a>, WordsFault>
    ensures { FindsMatches (map string_bytes words.now) result }
{
    match command(alloc)?.try_get_matches_from(words) {
        Ok(matches) => Ok(matches),
        Err(error) => Err(fault_of(&error)),
    }
}

/// The line that the matches make; `NotTaken` if there is no command among them.
fn line_in<'a>(alloc: Global, matches: &ArgMatches<'a>) -> Result<CommandLine<'a>, WordsFault>
    ensures { FindsLine matches.now result }
{
    let Some(command) = matches.get_str("command") else {
        return Err(WordsFault::NotTaken);
    };
    let args = args_in(alloc, matches)?;
    Ok(CommandLine {
        brief: is_given(matches, "brief"),
        fold: is_given(matches, "fold"),
        command,
        args,
    })
}

/// The one command that `clap` knows: flags and words.
fn command<'a>(alloc: Global) -> Result<Command<'a>, AllocError>
    ensures { IfOk result (λ c. app_of c ≡ mate_command) }
{
    flags(alloc)?
        .arg(command_word(alloc))?
        .arg(other_words(alloc))
}

/// A command with the two flags.
fn flags<'a>(alloc: Global) -> Result<Command<'a>, AllocError>
    ensures { IfOk result (λ c. app_of c ≡ flagged_app) }
{
    Command::new(alloc, "mate")
        .no_binary_name(true)
        .arg(flag(alloc, "brief"))?
        .arg(flag(alloc, "fold"))
}

fn flag<'a>(alloc: Global, name: &'a str) -> Arg<'a>
    ensures rule { rule_of result ≡ flag name.now }
    ensures local { result.global ≡ false }
{
    Arg::new(alloc, name).long(name).action(ArgAction::SetTrue)
}

fn command_word<'a>(alloc: Global) -> Arg<'a>
    ensures rule { rule_of result ≡ command_word }
    ensures local { result.global ≡ false }
{
    Arg::new(alloc, "command")
        .action(ArgAction::Set)
        .required(true)
}

fn other_words<'a>(alloc: Global) -> Arg<'a>
    ensures rule { rule_of result ≡ other_words }
    ensures local { result.global ≡ false }
{
    Arg::new(alloc, "args")
        .action(ArgAction::Append)
        .num_args(0..)
}

/// Whether the flag is among the words.
fn is_given(matches: &ArgMatches<'_>, flag: &str) -> bool
    ensures { result ≡ is_given flag.now (rows_of (found_of matches.now)) }
{
    match matches.value_source(flag) {
        Some(ValueSource::CommandLine) => true,
        Some(ValueSource::DefaultValue) => false,
        None => false,
    }
}

/// The words after the command.
fn args_in<'a>(alloc: Global, matches: &ArgMatches<'a>) -> Result<Vec<&'a str>, WordsFault>
    ensures args { IfOk result (λ args. map (λ w. w.now) args.items
        ≡ unwrap_or (all_of (codes "args") (rows_of (found_of matches.now))) []) }
    ensures memory { IfErr result (λ e. e ≡ NoMemory) }
{
    let mut args = Vec::new(alloc);
    let Some(given) = matches.get_strs("args") else {
        return Ok(args);
    };
    args.extend_from_slice(given)?;
    Ok(args)
}

fn fault_of(error: &Error) -> WordsFault
    ensures { TellsWordsFault (kind_of error.now) result }
{
    if error.kind() == ErrorKind::OutOfMemory {
        WordsFault::NoMemory
    } else {
        WordsFault::NotTaken
    }
}
