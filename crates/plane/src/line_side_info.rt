//! On which side of a directed line a place lies.
ghost use Rattle.std.specs.Prelude.{◌≡◌, ◌^◌, ◌≤◌, ℤ, pos, neg_ℤ, ◌==◌, int_le, int_lt, unsigned_abs};
ghost use Rattle.plane.specs.Holds.{Holds, alike, same_side, tests_on_line, tests_right};
ghost use Rattle.std.specs.Cmp.Rules.{comparing};
ghost use Rattle.std.proofs.Common.{rules};

#[derive(Clone, Copy)]
pub struct LineSideInfo {
    signed_side: f64,
}

impl LineSideInfo {
    #[tactic(auto, using(crate::proofs::Floats::is_exact))]
    pub(crate) fn from_determinant(s: i64) -> LineSideInfo
        requires { unsigned_abs s ≤ 2 ^ 53 }
        ensures { Holds result s }
    {
        LineSideInfo {
            signed_side: s as f64,
        }
    }

    /// Strictly left of the line.
    #[tactic(auto, using(crate::proofs::Floats::is_positive))]
    pub fn is_on_left_side(&self) -> bool
        ensures { (z : ℤ) → Holds self.now z → result ≡ int_lt (pos 0) z }
    {
        self.signed_side > 0.0
    }

    /// Strictly right of the line.
    #[tactic(auto, using(crate::proofs::Floats::is_negative))]
    pub fn is_on_right_side(&self) -> bool
        ensures value { (z : ℤ) → Holds self.now z → result ≡ int_lt z (pos 0) }
        ensures test { result ≡ tests_right self.now }
    {
        self.signed_side < 0.0
    }

    #[tactic(auto, using(crate::proofs::Floats::is_at_least))]
    pub fn is_on_left_side_or_on_line(&self) -> bool
        ensures { (z : ℤ) → Holds self.now z → result ≡ int_le (pos 0) z }
    {
        self.signed_side >= 0.0
    }

    #[tactic(auto, using(crate::proofs::Floats::is_at_most))]
    pub fn is_on_right_side_or_on_line(self) -> bool
        ensures { (z : ℤ) → Holds self z → result ≡ int_le z (pos 0) }
    {
        self.signed_side <= 0.0
    }

    #[tactic(auto, using(crate::proofs::Floats::is_zero))]
    pub fn is_on_line(self) -> bool
        ensures value { (z : ℤ) → Holds self z → result ≡ (unsigned_abs z == 0) }
        ensures test { result ≡ tests_on_line self }
    {
        self.signed_side == 0.0
    }

    /// The same place, seen from the line in the other direction.
    #[tactic(auto, using(crate::proofs::Floats::is_opposite))]
    pub fn reversed(self) -> LineSideInfo
        ensures { (z : ℤ) → Holds self z → Holds result (neg_ℤ z) }
    {
        LineSideInfo {
            signed_side: -self.signed_side,
        }
    }
}

/// Both on the line, or both strictly on one side of it. Not the equality of the floats: two sides on the left are equal, whatever their areas.
impl PartialEq for LineSideInfo {
    ghost eq = { same_side };

    fn eq(&self, other: &LineSideInfo) -> bool
        ensures test { result ≡ same_side self.now other.now }
        ensures value { (y z : ℤ) → Holds self.now y → Holds other.now z → result ≡ alike y z }
    {
        if self.is_on_line() || other.is_on_line() {
            self.is_on_line() && other.is_on_line()
        } else {
            self.is_on_right_side() == other.is_on_right_side()
        }
    }

    ghost laws = { Prim.search (comparing, rules) };
}
