//! The machine's arithmetic.

ghost use Rattle.std.specs.Prelude.{◌≡◌, pos, negsuc, Some, None};
ghost use Rattle.mate_num.specs.Number.{num};

use mate_num::Num16;

pub fn differences_are_from_the_left() -> Num16
    ensures { result ≡ num (negsuc 1) }
{
    Num16(3).sub(Num16(5))
}

pub fn quotients_are_towards_zero() -> Option<Num16>
    ensures { result ≡ Some (num (negsuc 2)) }
{
    Num16(-7).div(Num16(2))
}

pub fn remainders_have_the_sign_of_the_left() -> Option<Num16>
    ensures { result ≡ Some (num (negsuc 0)) }
{
    Num16(-7).rem(Num16(2))
}

pub fn quotients_by_0_are_none() -> Option<Num16>
    ensures { result ≡ None }
{
    Num16(5).div(Num16(0))
}

pub fn equal_numbers_are_not_less() -> Num16
    ensures { result ≡ num (pos 0) }
{
    Num16(3).lt(Num16(3))
}

pub fn equal_numbers_are_at_most_each_other() -> Num16
    ensures { result ≡ num (pos 1) }
{
    Num16(3).le(Num16(3))
}

pub fn negative_numbers_count_as_true() -> Num16
    ensures { result ≡ num (pos 0) }
{
    Num16(-5).not()
}

pub fn one_truth_is_enough_for_or() -> Num16
    ensures { result ≡ num (pos 1) }
{
    Num16(0).or(Num16(-5))
}
