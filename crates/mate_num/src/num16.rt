//! The values of a Maté machine: 16-bit numbers that wrap.

ghost use Rattle.std.specs.Prelude.{◌≡◌, ℤ, ◌+ℤ◌, ◌-ℤ◌, ◌*ℤ◌, neg_ℤ, ◌&&◌, ◌||◌, not, int_lt, int_le};
ghost use Rattle.mate_num.specs.Number.{wrap, IsNumber, IsCongruent, num, quotient, remainder, is_truth, truth, int_same};

/// A number from -32768 to 32767. Sums, differences and products wrap modulo 65536; every value but 0
/// counts as true, and a test gives 1 or 0.
#[derive(Clone, Copy)]
pub struct Num16(pub i16);

/// A law on `wrap`, by which sums, differences, products and quotients are stated: `wrap n` is a 16-bit
/// number, it equals `n` modulo 65536, and no other 16-bit number does.
pub fn wrap_is_the_residue()
    ensures number { (n : ℤ) → IsNumber (wrap n) }
    ensures congruent { (n : ℤ) → IsCongruent (wrap n) n }
    ensures only { (m n : ℤ) → IsNumber m → IsCongruent m n → m ≡ wrap n }
{}

impl Num16 {
    /// 1 for true, 0 for false.
    fn of_truth(test: bool) -> Num16
        ensures { result ≡ truth test }
    {
        if test { Num16(1) } else { Num16(0) }
    }

    /// Whether the number counts as true.
    fn is_truth(self) -> bool
        ensures { result ≡ is_truth self.0 }
    {
        self.0 != 0
    }

    pub fn add(self, by: Num16) -> Num16
        ensures { result ≡ num (wrap (self.0 +ℤ by.0)) }
    {
        Num16(self.0.wrapping_add(by.0))
    }

    pub fn sub(self, by: Num16) -> Num16
        ensures { result ≡ num (wrap (self.0 -ℤ by.0)) }
    {
        Num16(self.0.wrapping_sub(by.0))
    }

    pub fn mul(self, by: Num16) -> Num16
        ensures { result ≡ num (wrap (self.0 *ℤ by.0)) }
    {
        Num16(self.0.wrapping_mul(by.0))
    }

    pub fn neg(self) -> Num16
        ensures { result ≡ num (wrap (neg_ℤ self.0)) }
    {
        Num16(self.0.wrapping_neg())
    }

    /// The quotient towards zero; `-32768 / -1` wraps to -32768. None exactly if `by` is 0.
    pub fn div(self, by: Num16) -> Option<Num16>
        ensures { result ≡ quotient self.0 by.0 }
    {
        if by.0 == 0 {
            return None;
        }
        Some(Num16(self.0.wrapping_div(by.0)))
    }

    /// The remainder of `div`, with the sign of `self`. None exactly if `by` is 0.
    pub fn rem(self, by: Num16) -> Option<Num16>
        ensures { result ≡ remainder self.0 by.0 }
    {
        if by.0 == 0 {
            return None;
        }
        Some(Num16(self.0.wrapping_rem(by.0)))
    }

    pub fn eq(self, by: Num16) -> Num16
        ensures { result ≡ truth (int_same self.0 by.0) }
    {
        Num16::of_truth(self.0 == by.0)
    }

    pub fn ne(self, by: Num16) -> Num16
        ensures { result ≡ truth (not (int_same self.0 by.0)) }
    {
        Num16::of_truth(self.0 != by.0)
    }

    pub fn lt(self, by: Num16) -> Num16
        ensures { result ≡ truth (int_lt self.0 by.0) }
    {
        Num16::of_truth(self.0 < by.0)
    }

    pub fn gt(self, by: Num16) -> Num16
        ensures { result ≡ truth (int_lt by.0 self.0) }
    {
        Num16::of_truth(self.0 > by.0)
    }

    pub fn le(self, by: Num16) -> Num16
        ensures { result ≡ truth (int_le self.0 by.0) }
    {
        Num16::of_truth(self.0 <= by.0)
    }

    pub fn ge(self, by: Num16) -> Num16
        ensures { result ≡ truth (int_le by.0 self.0) }
    {
        Num16::of_truth(self.0 >= by.0)
    }

    /// 1 if both count as true, else 0.
    pub fn and(self, by: Num16) -> Num16
        ensures { result ≡ truth (is_truth self.0 && is_truth by.0) }
    {
        Num16::of_truth(self.is_truth() && by.is_truth())
    }

    /// 1 if at least one counts as true, else 0.
    pub fn or(self, by: Num16) -> Num16
        ensures { result ≡ truth (is_truth self.0 || is_truth by.0) }
    {
        Num16::of_truth(self.is_truth() || by.is_truth())
    }

    /// 1 for 0, and 0 for every other value.
    pub fn not(self) -> Num16
        ensures { result ≡ truth (not (is_truth self.0)) }
    {
        Num16::of_truth(!self.is_truth())
    }
}
