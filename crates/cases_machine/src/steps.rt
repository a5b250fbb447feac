//! Parts of a node on which the steps of a case are taken, and the numbers that words of a step spell.

use std::alloc::{AllocError, Global};

/// A part of a node.
pub trait Part {
    /// Takes one step, and returns the words that it prints.
    fn take(&mut self, alloc: Global, step: &str) -> Result<String, AllocError>;
}

/// What the steps, between `, `, print in turn.
pub fn answers<P: Part>(alloc: Global, part: &mut P, steps: &str) -> Result<String, AllocError> {
    let mut line = String::new(alloc);
    for step in steps.split(", ") {
        let words = part.take(alloc, step)?;
        append(&mut line, words.as_str())?;
    }
    Ok(line)
}

/// Appends words, with a space before them if there are others.
fn append(line: &mut String, words: &str) -> Result<(), AllocError> {
    if !line.is_empty() && !words.is_empty() {
        line.push_str(" ")?;
    }
    line.push_str(words)
}

/// A step's words: its verb, a place, and two values.
#[derive(Clone, Copy)]
pub struct Step<'a> {
    pub verb: &'a str,
    pub at: u8,
    pub first: i16,
    pub second: i16,
}

/// The words of a step, the missing ones as `place` and `value` say.
pub fn step_of(step: &str) -> Step<'_> {
    let mut words = step.split(' ');
    Step {
        verb: words.next().unwrap_or(""),
        at: place(words.next()),
        first: value(words.next()),
        second: value(words.next()),
    }
}

/// The number from 0 to 255 that the word spells, or 255 if it spells none.
pub fn place(word: Option<&str>) -> u8 {
    match word {
        Some(word) => word.parse::<u8>().unwrap_or(255),
        None => 255,
    }
}

/// The number that the word spells, or 0 if it spells none.
pub fn value(word: Option<&str>) -> i16 {
    match word {
        Some(word) => word.parse::<i16>().unwrap_or(0),
        None => 0,
    }
}
