//! A row of a table, from its cells.

use crate::ink::{Fill, Ink};

/// How rows are written.
#[derive(Clone, Copy)]
pub enum Form {
    /// Cells with commas between them, below a line with the names of the columns. What a row doesn't have is an empty cell.
    Csv,
    /// One object of JSON on each line. What a row doesn't have isn't in it.
    Json,
}

/// A cell of a row. No text has anything in it that is escaped in JSON.
#[derive(Clone, Copy)]
pub enum Cell<'a> {
    Nothing,
    Number(u64),
    Value(i16),
    /// A text; an empty one is nothing.
    Text(&'a str),
    /// The bytes of a text.
    Bytes(&'a [u8]),
    /// Bytes in hexadecimal digits.
    Hex(&'a [u8]),
    /// Values, with spaces between them in a cell, as a list in JSON; none are nothing.
    Values(&'a [i16]),
    /// Values, which may be none, in brackets.
    List(&'a [i16]),
}

impl Cell<'_> {
    fn is_nothing(&self) -> bool {
        match self {
            Cell::Nothing => true,
            Cell::Text(text) => text.is_empty(),
            Cell::Hex(bytes) => bytes.is_empty(),
            Cell::Values(values) => values.is_empty(),
            Cell::Number(_) | Cell::Value(_) | Cell::Bytes(_) | Cell::List(_) => false,
        }
    }
}

/// Writes the names of the columns, if the form has a line of them.
pub fn write_head(form: Form, columns: &[&str], ink: &mut Ink) {
    if let Form::Csv = form {
        let mut before = "";
        for column in columns {
            ink.line("{}{}", &[Fill::Text(before), Fill::Text(*column)]);
            before = ",";
        }
        ink.text("\n");
    }
}

/// Writes a row, whose cells are in the order of the columns.
pub fn write_row(form: Form, columns: &[&str], cells: &[Cell<'_>], ink: &mut Ink) {
    let json = match form {
        Form::Csv => false,
        Form::Json => true,
    };
    ink.text(if json { "{" } else { "" });
    let mut begun = false;
    for (column, cell) in columns.iter().zip(cells) {
        let shown = !json || !cell.is_nothing();
        if shown && begun {
            ink.text(",");
        }
        if shown && json {
            ink.line("\"{}\":", &[Fill::Text(*column)]);
        }
        write_cell(json, cell, ink);
        begun = begun || shown;
    }
    ink.text(if json { "}\n" } else { "\n" });
}

fn write_cell(json: bool, cell: &Cell<'_>, ink: &mut Ink) {
    if cell.is_nothing() {
        return;
    }
    let quote = if json { "\"" } else { "" };
    let between = if json { "," } else { " " };
    match cell {
        Cell::Nothing => {}
        Cell::Number(number) => ink.number(*number),
        Cell::Value(value) => ink.value(i32::from(*value)),
        Cell::Text(text) => {
            ink.line(
                "{}{}{}",
                &[Fill::Text(quote), Fill::Text(*text), Fill::Text(quote)],
            )
        }
        Cell::Bytes(bytes) => {
            ink.text(quote);
            ink.bytes(*bytes);
            ink.text(quote);
        }
        Cell::Hex(bytes) => {
            ink.text(quote);
            ink.hex(*bytes);
            ink.text(quote);
        }
        Cell::Values(values) => {
            ink.text(if json { "[" } else { "" });
            write_values(*values, between, ink);
            ink.text(if json { "]" } else { "" });
        }
        Cell::List(values) => {
            ink.text("[");
            write_values(*values, between, ink);
            ink.text("]");
        }
    }
}

/// Writes values, with `between` between two.
pub fn write_values(values: &[i16], between: &str, ink: &mut Ink) {
    let mut before = "";
    for value in values {
        ink.text(before);
        ink.value(i32::from(*value));
        before = between;
    }
}
