//! What is asked for.

use view_records::{Form, Window};

/// A view of a report.
#[derive(Clone, Copy)]
pub enum View<'a> {
    /// The timeline of its nodes.
    Timeline(Window),
    /// How versions spread, with the bounds of the world of a script if its file is given.
    Spread {
        world: Option<&'a str>,
        window: Window,
    },
    /// Rows of a table.
    Rows {
        rows: Rows,
        form: Form,
    },
    /// By when nodes have to hold the versions of the world of a script, as rows.
    Bounds {
        world: &'a str,
        form: Form,
    },
    /// What stores hold over time, as a picture.
    Chart(Window),
    /// The sums of a run, or of a part of it.
    Stats {
        json: bool,
        window: Window,
    },
}

/// What each row is about.
#[derive(Clone, Copy)]
pub enum Rows {
    /// A record.
    Events,
    /// An install.
    Spread,
    /// A call.
    Calls,
    /// An invocation that waits for another one.
    Waits,
    /// A variable or a buffer that changed.
    Store,
}

/// A view that is asked for, of which report of which machine.
#[derive(Clone, Copy)]
pub struct Request<'a> {
    pub view: View<'a>,
    /// The file of a description, or `builtin`.
    pub machine: &'a str,
    /// The file of a report, or `-` for standard input.
    pub report: &'a str,
}

/// What the words of the command line ask for.
#[derive(Clone, Copy)]
pub enum Words<'a> {
    /// The program's version.
    Version,
    View(Request<'a>),
}
