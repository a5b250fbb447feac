//! Why bytes are not the text of a report.

use mate_num::NoMemory;

/// Why a text isn't read.
#[derive(Clone, Copy)]
pub enum TextFault {
    /// The first line, counted from 1, that doesn't fit after the lines before it. A last line without LF doesn't fit, and neither
    /// does a line after the last line of a report; if a text of whole lines ends too early, it is the line that would come next.
    BadLine { line: u32 },
    /// Memory was refused.
    NoMemory,
}

impl From<NoMemory> for TextFault {
    ghost use Rattle.std.specs.Prelude.{◌≡◌};
    ghost use Rattle.report_text.specs.declared.fault.TextFault.TheVariants.{NoMemory as OutOfMemory};

    ghost from_gives = { λ _ fault. fault ≡ OutOfMemory };

    fn from(_refusal: NoMemory) -> TextFault {
        TextFault::NoMemory
    }
}
