//! The lines of a reader, one by one.

ghost use Rattle.std.specs.Prelude.{◌≤◌, length};

use crate::fault::ViewFault;
use std::alloc::Global;
use std::io::Read;

/// How many bytes are read at once.
const PIECE: usize = 65_536;

/// How long a line may be, in bytes. A report's lines are far shorter.
const LINE_MAX: usize = 65_536;

/// What comes next.
#[derive(Clone, Copy)]
pub enum Next {
    /// A line: how many bytes it has, without the line feed that ends it.
    Line { length: usize },
    /// Bytes without a line feed at the end, or too many before one.
    Broken,
    /// Nothing.
    End,
}

/// Lines that are read from `reader` piece by piece, with room for one line and one piece.
#[derive(Drop)]
pub struct Lines<R> {
    reader: R,
    held: Vec<u8>,
    /// How many of the bytes that are held were taken.
    taken: usize,
    over: bool,
    ghost within: { taken ≤ length held.items },
}

impl<R: Read> Lines<R> {
    /// The lines of a reader.
    pub fn new(alloc: Global, reader: R) -> Lines<R> {
        Lines {
            reader,
            held: Vec::new(alloc),
            taken: 0,
            over: false,
        }
    }

    /// The bytes that are held and not yet taken.
    fn rest(&self) -> &[u8] {
        self.held.as_slice().split_at(self.taken).1
    }

    /// What comes next. A line stays until it is taken.
    pub fn peek(&mut self) -> Result<Next, ViewFault> {
        for _ in 0..u64::MAX {
            let rest = self.rest();
            let length = line_len(rest);
            if length < rest.len() {
                return Ok(Next::Line { length });
            }
            if length > LINE_MAX {
                return Ok(Next::Broken);
            }
            if self.over {
                return Ok(if length == 0 { Next::End } else { Next::Broken });
            }
            self.fill()?;
        }
        Ok(Next::Broken)
    }

    /// The first bytes of what is left, at most as many as there are.
    pub fn line(&self, length: usize) -> &[u8] {
        let rest = self.rest();
        rest.split_at(length.min(rest.len())).0
    }

    /// Takes a line of this length and the line feed after it.
    pub fn take(&mut self, length: usize) {
        if length < self.held.len() - self.taken {
            self.taken += length + 1;
        }
    }

    /// Reads the next piece, over the bytes that were taken.
    fn fill(&mut self) -> Result<(), ViewFault> {
        self.forget();
        let held = self.held.len();
        if held > LINE_MAX + PIECE {
            return Ok(());
        }
        self.held.resize(held + PIECE, 0)?;
        let count = match self.reader.read(&mut self.held[held..]) {
            Ok(count) => count,
            Err(_) => return Err(ViewFault::Unread),
        };
        self.held.truncate(held + count);
        self.over = count == 0;
        Ok(())
    }

    /// Forgets the bytes that were taken.
    fn forget(&mut self) {
        let left = self.held.len() - self.taken;
        self.held.copy_within(self.taken.., 0);
        self.taken = 0;
        self.held.truncate(left);
    }
}

/// How many bytes come before the first line feed, or before the end if there is none.
fn line_len(bytes: &[u8]) -> usize
    ensures { result ≤ length bytes.now }
{
    bytes.iter().take_while(|byte| **byte != b'\n').count()
}
