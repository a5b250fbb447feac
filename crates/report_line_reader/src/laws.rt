//! The laws of lines. Each is what a function promises that does nothing.

ghost use Rattle.std.specs.Prelude.{◌≡◌, Some};
ghost use Rattle.vm_shape.specs.declared.description.Description.{Description};
ghost use Rattle.report_line_reader.specs.declared.line.Line.{Line};
ghost use Rattle.report_line_reader.specs.Told.{line_words, IsRightLine, HasLineRanges};
ghost use Rattle.report_line_reader.specs.Reading.{line_in};

/// Each line that is right for the description is read back from its words.
pub fn written_line_is_read()
    ensures { (d : Description) (l : Line) → IsRightLine d l → HasLineRanges l → line_in d (line_words d l) ≡ Some l }
{}
