//! The lines of a report and their words.

ghost use Rattle.std.specs.Prelude.{◌≡◌, [], Some, None};
ghost use Rattle.mate_journal.specs.declared.air.Air.TheVariants.{Lost};
ghost use Rattle.report_line_reader.specs.Reading.{line_with};
ghost use Rattle.report_line_reader.specs.declared.line.Told.TheVariants.{OnAir};

use mate_num::Store;
use report_line_reader::fields::next_node;
use report_line_reader::{Line, Words, line_of, store_of};
use vm_shape::Description;

#[tactic(auto, unfolding(report_line_reader::specs::Reading::told_of, report_line_reader::specs::Verbs::verb_of))]
pub fn a_lost_packet_was_not_got(desc: &Description) -> Option<Line>
    ensures { result ≡ Some (line_with 8 70 2 (OnAir (Lost 3 4))) }
{
    line_of(desc, b"8 70 2 lost 3 4")
}

pub fn node_numbers_end_below_64() -> Option<u8>
    ensures { result ≡ None }
{
    next_node(&mut Words::new(b"64"))
}

pub fn a_word_behind_the_values_is_no_store(desc: &Description) -> Option<Store>
    requires shared { desc.now.shared.items ≡ [] }
    requires buffers { desc.now.buffers.items ≡ [] }
    ensures { result ≡ None }
{
    store_of(desc, &mut Words::new(b"a=1"))
}
