//! The depths of the stack that a pass gave to places.

ghost use Rattle.std.specs.Prelude.{◌≡◌, ◌<◌, length};
ghost use Rattle.mate_code.specs.Verification.{given, mark, first_marks, depth_at};
ghost use Rattle.code_verifier.specs.Marks.{mark_in, marks_in};

use mate_num::CODE_MAX;

/// A mark for each place, and one for the place after the longest code.
pub const MARKS: usize = CODE_MAX + 1;

/// The depths that were given to a place.
#[derive(Clone, Copy)]
pub enum Mark {
    /// None.
    Blank,
    /// One and the same.
    Depth(u8),
    /// Two that differ.
    Clash,
}

impl Mark {
    // The mark where the place is given one more depth.
    fn given(self, depth: u8) -> Mark
        ensures { mark_in result ≡ given (mark_in self) depth }
    {
        match self {
            Mark::Blank => Mark::Depth(depth),
            Mark::Depth(known) => {
                if known == depth {
                    Mark::Depth(known)
                } else {
                    Mark::Clash
                }
            }
            Mark::Clash => Mark::Clash,
        }
    }
}

/// Puts the marks with which a pass begins in place of those that are there: place 0 has depth 0.
pub fn begin(marks: &mut [Mark])
    requires { 0 < length marks.old }
    ensures { marks_in marks.new ≡ first_marks }
{
    marks.fill(Mark::Blank);
    give(marks, 0, 0);
}

/// Gives a place one more depth.
pub fn give(marks: &mut [Mark], place: usize, depth: u8)
    requires { place < length marks.old }
    ensures { marks_in marks.new ≡ mark place depth (marks_in marks.old) }
{
    let given = marks[place].given(depth);
    marks[place] = given;
}

/// The depth of a place, and 0 where none was given, or two.
pub fn depth(marks: &[Mark], place: usize) -> u8
    ensures { result ≡ depth_at (marks_in marks.now) place }
{
    match marks.get(place) {
        Some(Mark::Depth(depth)) => *depth,
        Some(Mark::Blank) | Some(Mark::Clash) | None => 0,
    }
}
