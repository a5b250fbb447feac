//! From the words of the command line to what they ask for.

use crate::numbers::{kinds_of, nodes_of, number_or};
use crate::request::{Request, Rows, View, Words};
use clap::error::ErrorKind;
use clap::parser::ValueSource;
use clap::{Arg, ArgAction, ArgMatches, Command, Error};
use command_refusals::Refusal;
use std::alloc::{AllocError, Global};
use view_records::{Form, Window, all_nodes};

/// Reads the words, without the program's own name.
#[inline(never)]
pub fn read<'a>(alloc: Global, words: &'a [String]) -> Result<Words<'a>, Refusal> {
    let command = match command(alloc) {
        Ok(command) => command,
        Err(_) => return Err(Refusal::NoMemory),
    };
    let matches = match command.try_get_matches_from(words) {
        Ok(matches) => matches,
        Err(error) => return Err(refusal_of(&error)),
    };
    match words_of(&matches) {
        Some(words) => Ok(words),
        None => Err(Refusal::Usage),
    }
}

fn refusal_of(error: &Error) -> Refusal {
    if error.kind() == ErrorKind::OutOfMemory {
        Refusal::NoMemory
    } else {
        Refusal::Usage
    }
}

/// The one command that `clap` knows: flags, options and words.
fn command<'a>(alloc: Global) -> Result<Command<'a>, AllocError> {
    Command::new(alloc, "mate-view")
        .no_binary_name(true)
        .arg(flag(alloc, "json"))?
        .arg(flag(alloc, "events"))?
        .arg(flag(alloc, "svg"))?
        .arg(flag(alloc, "version"))?
        .arg(option(alloc, "vm"))?
        .arg(option(alloc, "from"))?
        .arg(option(alloc, "to"))?
        .arg(option(alloc, "nodes"))?
        .arg(option(alloc, "world"))?
        .arg(option(alloc, "what"))?
        .arg(option(alloc, "only"))?
        .arg(word(alloc, "view"))?
        .arg(word(alloc, "report"))
}

fn flag<'a>(alloc: Global, name: &'a str) -> Arg<'a> {
    Arg::new(alloc, name).long(name).action(ArgAction::SetTrue)
}

fn option<'a>(alloc: Global, name: &'a str) -> Arg<'a> {
    Arg::new(alloc, name).long(name).action(ArgAction::Set)
}

fn word<'a>(alloc: Global, name: &'a str) -> Arg<'a> {
    Arg::new(alloc, name).action(ArgAction::Set)
}

/// What the words ask for; None if no view takes them.
fn words_of<'a>(matches: &ArgMatches<'a>) -> Option<Words<'a>> {
    if !is_given(matches, "version") {
        return Some(Words::View(Request {
            view: view_of(matches)?,
            machine: matches.get_str("vm").unwrap_or("builtin"),
            report: matches.get_str("report").unwrap_or("-"),
        }));
    }
    let alone = Given::of(matches).is_nothing()
        && matches.get_str("vm").is_none()
        && matches.get_str("view").is_none();
    if alone { Some(Words::Version) } else { None }
}

/// Which options are given that only some views take.
#[derive(Clone, Copy)]
struct Given {
    json: bool,
    svg: bool,
    what: bool,
    world: bool,
    only: bool,
    nodes: bool,
    /// `--from`, `--to` or `--events`.
    part: bool,
}

impl Given {
    fn of(matches: &ArgMatches<'_>) -> Given {
        Given {
            json: is_given(matches, "json"),
            svg: is_given(matches, "svg"),
            what: matches.get_str("what").is_some(),
            world: matches.get_str("world").is_some(),
            only: matches.get_str("only").is_some(),
            nodes: matches.get_str("nodes").is_some(),
            part: is_given(matches, "events")
                || matches.get_str("from").is_some()
                || matches.get_str("to").is_some(),
        }
    }

    /// Whether none is given that rows don't take.
    fn is_of_rows(&self) -> bool {
        !self.svg && !self.world && !self.only && !self.nodes && !self.part
    }

    /// Whether none is given that a picture doesn't take.
    fn is_of_picture(&self) -> bool {
        !self.json && !self.what && !self.svg
    }

    /// Whether none is given that the rows of bounds don't take.
    fn is_of_bounds(&self) -> bool {
        !self.svg && !self.what && !self.only && !self.nodes && !self.part
    }

    fn is_nothing(&self) -> bool {
        self.is_of_rows() && !self.json && !self.what
    }
}

fn view_of<'a>(matches: &ArgMatches<'a>) -> Option<View<'a>> {
    let given = Given::of(matches);
    let form = if given.json { Form::Json } else { Form::Csv };
    match matches.get_str("view")? {
        "timeline" if given.is_of_picture() && !given.world => {
            Some(View::Timeline(window_of(matches)?))
        }
        "spread" if given.is_of_picture() && !given.only => Some(View::Spread {
            world: matches.get_str("world"),
            window: window_of(matches)?,
        }),
        "csv" if given.is_of_rows() => Some(View::Rows {
            rows: rows_of(matches.get_str("what").unwrap_or("events"))?,
            form,
        }),
        "waits" if given.is_of_rows() && !given.what => Some(View::Rows {
            rows: Rows::Waits,
            form,
        }),
        "bounds" if given.is_of_bounds() => Some(View::Bounds {
            world: matches.get_str("world")?,
            form,
        }),
        "store" if given.is_of_rows() && !given.what => Some(View::Rows {
            rows: Rows::Store,
            form,
        }),
        "store" if given.svg && !given.json && !given.what && !given.world && !given.only => {
            Some(View::Chart(window_of(matches)?))
        }
        "stats" if !given.what && !given.svg && !given.world && !given.only && !given.nodes => {
            Some(View::Stats {
                json: given.json,
                window: window_of(matches)?,
            })
        }
        _ => None,
    }
}

/// Whether the flag is among the words.
fn is_given(matches: &ArgMatches<'_>, flag: &str) -> bool {
    match matches.value_source(flag) {
        Some(ValueSource::CommandLine) => true,
        Some(ValueSource::DefaultValue) | None => false,
    }
}

/// The part of a report that is asked for; None if its end comes before its beginning.
fn window_of(matches: &ArgMatches<'_>) -> Option<Window> {
    let from = number_or(matches.get_str("from"), 0)?;
    let to = number_or(matches.get_str("to"), u64::MAX)?;
    if to < from {
        return None;
    }
    Some(Window {
        from,
        to,
        nodes: match matches.get_str("nodes") {
            Some(list) => nodes_of(list)?,
            None => all_nodes(),
        },
        kinds: match matches.get_str("only") {
            Some(list) => kinds_of(list)?,
            None => u32::MAX,
        },
        by_events: is_given(matches, "events"),
    })
}

fn rows_of(word: &str) -> Option<Rows> {
    match word {
        "events" => Some(Rows::Events),
        "spread" => Some(Rows::Spread),
        "calls" => Some(Rows::Calls),
        _ => None,
    }
}
