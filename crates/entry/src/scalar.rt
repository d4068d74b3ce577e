//! Scalars, and the numbers of the grid that they read as.
ghost use Rattle.std.specs.Prelude.{◌≡◌, ℕ, ◌≤◌, Ok, Result};
ghost use Rattle.entry.specs.declared.fault.Cause.{Cause};
ghost use Rattle.entry.specs.Reading.{float_reading, read_small};
ghost use Rattle.std.proofs.Common.{rules};
ghost use Rattle.entry.specs.Within.{float_within};

use crate::fault::Cause;
use std::num::saturating_f64_to_u16;

/// A scalar, by the number of the grid that it reads as, or why it has none.
pub trait GridScalar {
    ghost reading: { Self → Result ℕ Cause };

    /// The number of the grid that the scalar equals, or the first cause why there is none.
    fn read(&self) -> Result<u16, Cause>
        ensures { result ≡ reading self.now };

    /// The same number without tests, for a scalar that is known to have one; else any number.
    fn grid(&self) -> u16
        ensures { (n : ℕ) → reading self.now ≡ Ok n → result ≡ n };

    ghost within: { (x : Self) (n : ℕ) → reading x ≡ Ok n → n ≤ 16383 };
}

impl GridScalar for u16 {
    ghost reading = { read_small };

    ghost within = { Prim.search rules };

    fn read(&self) -> Result<u16, Cause> {
        if *self > 16383 {
            Err(Cause::AboveMost)
        } else {
            Ok(*self)
        }
    }

    fn grid(&self) -> u16 {
        *self
    }
}

impl GridScalar for f64 {
    ghost reading = { float_reading };

    ghost within = { λ x n h. float_within x n h };

    #[tactic(auto, using(crate::proofs::FloatReading::by_tests))]
    fn read(&self) -> Result<u16, Cause> {
        let x = *self;
        let whole = saturating_f64_to_u16(x);
        if x.is_nan() {
            Err(Cause::NotANumber)
        } else if x < 0.0 {
            Err(Cause::BelowZero)
        } else if x > 16383.0 {
            Err(Cause::AboveMost)
        } else if f64::from(whole) == x {
            Ok(whole)
        } else {
            Err(Cause::Fraction)
        }
    }

    #[tactic(auto, using(crate::proofs::FloatReading::cut_read))]
    fn grid(&self) -> u16 {
        saturating_f64_to_u16(*self)
    }
}
