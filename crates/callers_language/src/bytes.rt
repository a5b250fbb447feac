//! Bytes that exclude a wrong body of `is_blank`.

ghost use Rattle.std.specs.Prelude.{◌≡◌, true};

use ts_lexer::spans::is_blank;

pub fn a_carriage_return_is_a_blank() -> bool
    ensures { result ≡ true }
{
    is_blank(b'\r')
}
