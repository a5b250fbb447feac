//! A report that is read line by line.

use crate::fault::ViewFault;
use crate::lines::{Lines, Next};
use crate::order::Order;
use report_line_reader::{Bulk, Line, light_line_of, with_bulk};
use report_text::last_line::{LastLine, last_line_of};
use std::alloc::Global;
use std::io::Read;
use vm_shape::Description;

/// A report of any length that is read line by line, by the rules of `report_text`.
#[derive(Drop)]
pub struct Source<R> {
    lines: Lines<R>,
    order: Order,
    last: Option<LastLine>,
}

impl<R: Read> Source<R> {
    /// The report that a reader gives.
    pub fn new(alloc: Global, reader: R) -> Source<R> {
        Source {
            lines: Lines::new(alloc, reader),
            order: Order::new(),
            last: None,
        }
    }

    /// The next line; None once the last line was read and nothing comes after it. `BadLine` has the number of the
    /// first line that isn't one of a report.
    pub fn next(&mut self, desc: &Description) -> Result<Option<Line>, ViewFault> {
        if self.last.is_some() {
            return Ok(None);
        }
        let Next::Line { length } = self.lines.peek()? else {
            return Err(self.order.bad_line(1));
        };
        let mut bulk = Bulk::new();
        let told = light_line_of(desc, self.lines.line(length), &mut bulk);
        match told {
            Some(line) => {
                self.order.take(&line, &bulk)?;
                self.lines.take(length);
                Ok(Some(with_bulk(line, bulk)))
            }
            None => {
                self.end(length)?;
                Ok(None)
            }
        }
    }

    /// Takes the last line, of this length.
    fn end(&mut self, length: usize) -> Result<(), ViewFault> {
        let line = self.lines.line(length);
        let Some(last) = last_line_of(line) else {
            return Err(self.order.bad_record(line));
        };
        self.order.end(&last)?;
        self.lines.take(length);
        let Next::End = self.lines.peek()? else {
            return Err(self.order.bad_line(2));
        };
        self.last = Some(last);
        Ok(())
    }

    /// How many lines were read, without the last one.
    pub fn count(&self) -> u64 {
        self.order.count
    }

    /// A number above each node number in the lines so far.
    pub fn nodes(&self) -> u64 {
        self.order.nodes
    }

    /// The last line, once it was read.
    pub fn last(&self) -> Option<LastLine> {
        self.last
    }
}
