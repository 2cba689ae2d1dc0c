//! Numbers that are printed with a point.
ghost use Rattle.std.specs.Prelude.{Some};
ghost use Rattle.texts.specs.Numbers.{point_text};
ghost use Rattle.texts.specs.Signed.{signed_text};

use std::fmt;

/// A score in units of 10^-12: it is shown with twelve decimals.
#[derive(Clone, Copy, Debug, PartialEq, Eq)]
pub struct Score {
    pub units: u128,
}

impl fmt::Display for Score {
    ghost output = { λ score. Some (point_text 12 score.units) };

    fn fmt<W: fmt::Write>(&self, f: &mut fmt::Formatter<W>) -> fmt::Result {
        let whole = self.units / 1_000_000_000_000;
        let part = self.units % 1_000_000_000_000;
        write!(f, "{whole}.{part:012}")
    }
}

/// A score in units of 10^-12, which may be below 0: it is shown with twelve decimals, and below 0 with a
/// `-` in front.
#[derive(Clone, Copy, Debug, PartialEq, Eq)]
pub struct SignedScore {
    pub units: i128,
}

impl fmt::Display for SignedScore {
    ghost output = { λ score. Some (signed_text (point_text 12) score.units) };

    fn fmt<W: fmt::Write>(&self, f: &mut fmt::Formatter<W>) -> fmt::Result {
        let size = Score {
            units: self.units.unsigned_abs(),
        };
        if self.units < 0 {
            write!(f, "-{size}")
        } else {
            write!(f, "{size}")
        }
    }
}

/// A chance in units of 10^-9: it is shown with nine decimals.
#[derive(Clone, Copy, Debug, PartialEq, Eq)]
pub struct Chance {
    pub units: u128,
}

impl fmt::Display for Chance {
    ghost output = { λ chance. Some (point_text 9 chance.units) };

    fn fmt<W: fmt::Write>(&self, f: &mut fmt::Formatter<W>) -> fmt::Result {
        let whole = self.units / 1_000_000_000;
        let part = self.units % 1_000_000_000;
        write!(f, "{whole}.{part:09}")
    }
}
