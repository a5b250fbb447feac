//! The text of a report, read back: the lines, and the fields of their records, read word by word.
#![tactic(auto)]

pub mod fields;
mod hex_words;
pub mod laws;
pub mod light_line;
pub mod line;
mod names;
pub mod numbers;
mod spelling;
pub mod store_words;
pub mod verb;
pub mod words;

pub use laws::written_line_is_read;
pub use light_line::{Bulk, LightLine, LightTold, light_line_of};
pub use line::{Line, Told, line_of, with_bulk};
pub use store_words::store_of;
pub use verb::entry_word;
pub use words::Words;
