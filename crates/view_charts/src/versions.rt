//! The versions of a handler: what each node holds over time, and what share of them holds each version.

use crate::installs::{Install, Replaced};
use crate::spread::{ROW, row_of};
use mate_num::{HandlerId, Stamp};
use view_records::Fill::{Number, Tenths, Text};
use view_records::Ink;
use view_svg::svg::{begin_text, colour, line, rect, text, write_when};
use view_svg::{Flow, LEFT, PLOT, Part};

/// How high the curves of a handler are, in pixels.
pub const CURVE: u64 = 72;

/// The most versions of a handler that have a curve.
const CURVES_MAX: usize = 8;

/// The newest versions of a handler, each with its first install, in the order of these.
#[derive(Clone, Copy)]
pub struct Versions {
    first: [Option<Install>; CURVES_MAX],
    /// Whether there are more of them.
    more: bool,
}

impl Versions {
    /// The versions of a handler.
    pub fn of(installs: &[Install], handler: HandlerId) -> Versions {
        let mut versions = Versions {
            first: [None; CURVES_MAX],
            more: false,
        };
        for install in installs {
            if install.handler == handler.0 {
                versions.take(install);
            }
        }
        versions
    }

    fn take(&mut self, install: &Install) {
        let mut free = CURVES_MAX;
        for place in 0..CURVES_MAX {
            match self.first[place] {
                Some(first) if first.version == install.version => return,
                Some(first) if self.more && place == 0 && install.version < first.version => return,
                Some(_) => {}
                None => free = free.min(place),
            }
        }
        if free < CURVES_MAX {
            self.first[free] = Some(*install);
            return;
        }
        self.more = true;
        for place in 1..CURVES_MAX {
            self.first[place - 1] = self.first[place];
        }
        self.first[CURVES_MAX - 1] = Some(*install);
    }

    /// Writes which colour is which version, and when and where each was installed first.
    pub fn write_names(&self, part: &Part, y: u64, ink: &mut Ink) {
        let mut flow = Flow::from(y);
        let form = if part.window.by_events {
            "version {} from event {} on node {}</text>\n"
        } else {
            "version {} from {} ms on node {}</text>\n"
        };
        for first in &self.first {
            if let Some(install) = first {
                let (x, y) = (flow.next(34), flow.y);
                let (top, right) = (y.saturating_sub(9), x.saturating_add(120));
                rect("run", tone(install), x, right, top, 9, ink);
                ink.text("/>\n");
                begin_text("t", "", x.saturating_add(180), y, ink);
                ink.line(
                    form,
                    &[
                        Number(u64::from(install.version)),
                        Number(part.window.place(install.at)),
                        Number(u64::from(install.node)),
                    ],
                );
            }
        }
        if self.more {
            let x = flow.next(30);
            text("t", x, flow.y, "older versions have no curve", ink);
        }
    }

    /// How many lines the names take.
    pub fn lines(&self) -> u64 {
        let mut flow = Flow::from(0);
        for first in &self.first {
            if first.is_some() {
                let _ = flow.next(34);
            }
        }
        if self.more {
            let _ = flow.next(30);
        }
        (flow.y / 18).saturating_add(1)
    }

    /// Draws the share of all nodes that hold each version, as steps, and the number of each version where its curve begins.
    pub fn draw_curves(&self, part: &Part, installs: &[Install], top: u64, ink: &mut Ink) {
        share_line("100%", top, ink);
        share_line("50%", top.saturating_add(CURVE / 2), ink);
        share_line("0", top.saturating_add(CURVE), ink);
        for first in &self.first {
            if let Some(first) = first {
                if part.is_before_end(first.at) {
                    draw_curve(part, installs, first, top, ink);
                }
            }
        }
        let mut free = 0u64;
        for first in &self.first {
            if let Some(first) = first {
                let x = part.tenths(first.at).saturating_add(30).max(free);
                if part.is_before_end(first.at) && x < (LEFT + PLOT) * 10 {
                    begin_text("s name", tone(first), x, top.saturating_add(CURVE - 3), ink);
                    ink.line("{}</text>\n", &[Number(u64::from(first.version))]);
                    free = x.saturating_add(260);
                }
            }
        }
    }
}

/// The colour of a version, by its number.
fn tone(install: &Install) -> &'static str {
    colour((install.version % 8) as usize)
}

/// A line of the scale of shares.
fn share_line(share: &str, y: u64, ink: &mut Ink) {
    line("grid", LEFT * 10, y, (LEFT + PLOT) * 10, y, ink);
    ink.text("/>\n");
    text("e s", LEFT * 10 - 60, y.saturating_add(3), share, ink);
}

/// Draws the share of all nodes that hold a version, from its first install on.
fn draw_curve(part: &Part, installs: &[Install], first: &Install, top: u64, ink: &mut Ink) {
    let bottom = top.saturating_add(CURVE);
    ink.line(
        "<path class=\"curve{}\" d=\"M{} {}",
        &[
            Text(tone(first)),
            Tenths(part.tenths(first.at)),
            Number(bottom),
        ],
    );
    draw_steps(part, installs, first, bottom, ink);
    ink.text("H");
    ink.number(LEFT + PLOT);
    ink.text("\"><title>share of the nodes that hold version ");
    ink.number(u64::from(first.version));
    ink.text("</title></path>\n");
}

/// Draws the steps of a curve above its bottom.
fn draw_steps(part: &Part, installs: &[Install], first: &Install, bottom: u64, ink: &mut Ink) {
    let mut holders = 0u64;
    for install in installs {
        if install.handler == first.handler && part.is_before_end(install.at) {
            let before = holders;
            let bit = 1u64.wrapping_shl(u32::from(install.node));
            if install.version == first.version {
                holders |= bit;
            } else {
                holders &= !bit;
            }
            if holders != before {
                let count = u64::from(holders.count_ones());
                let share = count.saturating_mul(CURVE) / part.last.nodes.max(1);
                ink.line(
                    "H{}V{}",
                    &[
                        Tenths(part.tenths(install.at)),
                        Number(bottom.saturating_sub(share)),
                    ],
                );
            }
        }
    }
}

/// Draws the versions of each node.
pub fn draw_rows(part: &Part, installs: &[Install], handler: HandlerId, rows: u64, ink: &mut Ink) {
    for install in installs {
        let seen = part.is_before_end(install.at) && part.has_row(install.node);
        if seen && install.handler == handler.0 {
            let replaced = Replaced::of(installs, install);
            draw_version(
                part,
                install,
                &replaced,
                row_of(part, install.node, rows),
                ink,
            );
        }
    }
}

/// Draws a version on a node: full while it is the newest anywhere, hollow from then on until the next one comes.
fn draw_version(part: &Part, install: &Install, replaced: &Replaced, y: u64, ink: &mut Ink) {
    let end = replaced.here.unwrap_or(part.end);
    let (from, to) = (part.tenths(install.at), part.tenths(end));
    let turn = part.tenths(replaced.anywhere.unwrap_or(end));
    let middle = turn.min(to).max(from);
    if part.window.place(end) >= part.scale.from {
        if middle > from || middle >= to {
            rect(
                "run",
                tone(install),
                from,
                middle,
                y.saturating_add(2),
                ROW - 4,
                ink,
            );
            write_title(install, end, ink);
        }
        if to > middle {
            rect(
                "old",
                tone(install),
                middle,
                to,
                y.saturating_add(2),
                ROW - 4,
                ink,
            );
            write_title(install, end, ink);
        }
    }
    if to.saturating_sub(from) > 300 {
        let class = if middle > from.saturating_add(200) {
            "s in"
        } else {
            "s"
        };
        begin_text(class, "", from.saturating_add(30), y.saturating_add(9), ink);
        ink.line("{}</text>\n", &[Number(u64::from(install.version))]);
    }
}

/// Writes the title of a bar, and the end of its element.
fn write_title(install: &Install, end: Stamp, ink: &mut Ink) {
    ink.line(
        "><title>node {}: version {}",
        &[
            Number(u64::from(install.node)),
            Number(u64::from(install.version)),
        ],
    );
    write_when(install.at, end, ink);
    ink.text("</title></rect>\n");
}
