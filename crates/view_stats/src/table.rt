//! A table of numbers: columns to read, each as wide as what it has, or objects of JSON, one a row.

use std::alloc::Global;
use view_records::Fill::{Number, Text};
use view_records::{Ink, ViewFault};

/// The most columns that a table has.
const COLUMNS_MAX: usize = 16;

/// What a row is about.
#[derive(Clone, Copy)]
pub enum Label<'a> {
    Number(u64),
    Name(&'a str),
}

/// The words of a table: its name, the head of its first column, and those of its numbers.
#[derive(Clone, Copy)]
pub struct Heads<'a> {
    pub table: &'a str,
    pub first: &'a str,
    pub columns: &'a [&'a str],
}

/// A table of numbers. Cells are kept row by row.
#[derive(Drop)]
pub struct Table<'a> {
    heads: Heads<'a>,
    labels: Vec<Label<'a>>,
    cells: Vec<u64>,
}

impl<'a> Table<'a> {
    /// A table without rows.
    pub fn new(alloc: Global, heads: Heads<'a>) -> Table<'a> {
        Table {
            heads,
            labels: Vec::new(alloc),
            cells: Vec::new(alloc),
        }
    }

    /// Adds a row with these numbers, as many as there are columns.
    pub fn add(&mut self, label: Label<'a>, cells: &[u64]) -> Result<(), ViewFault> {
        self.labels.push(label)?;
        self.cells.extend_from_slice(cells)?;
        Ok(())
    }

    fn at(&self, row: usize, column: usize) -> u64 {
        let place = row
            .saturating_mul(self.heads.columns.len())
            .saturating_add(column);
        match self.cells.get(place) {
            Some(number) => *number,
            None => 0,
        }
    }

    /// Writes the table. One without rows is its heads alone, or nothing in JSON.
    pub fn write(&self, json: bool, ink: &mut Ink) {
        if !json {
            let first = self.first_width();
            let widths = self.widths();
            self.write_heads(first, &widths, ink);
            self.write_rows(first, &widths, ink);
            return;
        }
        for number in 0..self.labels.len() {
            self.write_object(number, ink);
        }
    }

    fn write_object(&self, number: usize, ink: &mut Ink) {
        ink.line("{\"table\":\"{}\"", &[Text(self.heads.table)]);
        match self.labels.get(number) {
            Some(Label::Name(name)) => ink.line(",\"name\":\"{}\"", &[Text(*name)]),
            Some(Label::Number(label)) => {
                ink.line(",\"{}\":{}", &[Text(self.heads.first), Number(*label)])
            }
            None => {}
        }
        let mut place = 0usize;
        for column in self.heads.columns {
            let cell = self.at(number, place);
            ink.line(",\"{}\":{}", &[Text(*column), Number(cell)]);
            place = place.saturating_add(1);
        }
        ink.text("}\n");
    }

    fn write_heads(&self, first: usize, widths: &[usize], ink: &mut Ink) {
        ink.line("\n{}", &[Text(self.heads.first)]);
        write_spaces(first.saturating_sub(self.heads.first.len()), ink);
        for (column, width) in self.heads.columns.iter().zip(widths) {
            write_spaces(width.saturating_sub(column.len()), ink);
            ink.text(*column);
        }
        ink.text("\n");
    }

    fn write_rows(&self, first: usize, widths: &[usize], ink: &mut Ink) {
        let columns = self.heads.columns.len();
        let mut row = 0usize;
        for label in self.labels.as_slice() {
            match label {
                Label::Number(number) => ink.number(*number),
                Label::Name(name) => ink.text(*name),
            }
            let mut left = first.saturating_sub(label_width(label));
            for column in 0..columns {
                let cell = self.at(row, column);
                let width = match widths.get(column) {
                    Some(width) => *width,
                    None => 0,
                };
                write_spaces(left.saturating_add(width).saturating_sub(digits(cell)), ink);
                ink.number(cell);
                left = 0;
            }
            ink.text("\n");
            row = row.saturating_add(1);
        }
    }

    /// How wide the first column is, in characters.
    fn first_width(&self) -> usize {
        let mut width = self.heads.first.len();
        for label in self.labels.as_slice() {
            width = width.max(label_width(label));
        }
        width
    }

    /// How wide the other columns are, in characters: two spaces, and the head or the longest number.
    fn widths(&self) -> [usize; COLUMNS_MAX] {
        let mut widths = [0usize; COLUMNS_MAX];
        let mut place = 0usize;
        for column in self.heads.columns {
            if place < COLUMNS_MAX {
                widths[place] = self.width_of(place).max(column.len()).saturating_add(2);
            }
            place = place.saturating_add(1);
        }
        widths
    }

    /// How many digits the longest number of a column has.
    fn width_of(&self, column: usize) -> usize {
        let mut width = 0usize;
        for row in 0..self.labels.len() {
            width = width.max(digits(self.at(row, column)));
        }
        width
    }
}

fn label_width(label: &Label<'_>) -> usize {
    match label {
        Label::Number(number) => digits(*number),
        Label::Name(name) => name.len(),
    }
}

/// How many digits a number has.
fn digits(number: u64) -> usize {
    let mut left = number;
    let mut count = 1usize;
    for _ in 0..20u8 {
        if left >= 10 {
            left /= 10;
            count = count.saturating_add(1);
        }
    }
    count
}

fn write_spaces(count: usize, ink: &mut Ink) {
    for _ in 0..count {
        ink.text(" ");
    }
}
