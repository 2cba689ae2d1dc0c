//! Noise: the chance with which a move is flipped.

use crate::Move;
use std::marker::Model;

/// A player's move is flipped with the chance `n`/`e`, in each turn anew: `e` is from 1 to 1000 and
/// 2`n` is at most `e`. Contracts see the two numbers.
#[derive(Clone, Copy, Debug, PartialEq, Eq)]
pub struct Noise {
    pub n: u32,
    pub e: u32,
}

impl Model for Noise {
    ghost use Rattle.history_model.specs.Noise.{FlipRate, IsFlipRate};

    ghost Value = { FlipRate };

    ghost view = { λ s. record { n = s.n; e = s.e } };

    ghost invariant = { λ s. IsFlipRate (record { n = s.n; e = s.e }) };

    ghost inverse = { λ v. record { n = v.n; e = v.e } };
}

impl Noise {
    ghost use Rattle.std.specs.Prelude.{◌≡◌, ◌≤◌, ◌*◌};
    ghost use Rattle.history_model.specs.Expectation.{shown};
    ghost use Rattle.history_model.specs.Noise.{FlipRate, IsFlipRate};

    /// The denominator, and that the chance is one.
    pub fn denominator(&self) -> u32
        ensures value { result ≡ self.now.e }
        ensures rate { IsFlipRate self.now }
    {
        self.e
    }

    /// The weight over `den`·e with which a player of weight `weight`/`den` shows a move.
    pub(crate) fn shown(&self, den: u32, weight: u32, seen: Move) -> u64
        requires few { den ≤ 1000 }
        requires weighed { weight ≤ den }
        ensures value { result ≡ shown self.now den weight seen }
        ensures within { result ≤ den * self.now.e }
    {
        let flipped = self.n as u64;
        let kept = self.e as u64 - flipped;
        let other = (den - weight) as u64;
        let weight = weight as u64;
        match seen {
            Move::C => weight * kept + other * flipped,
            Move::D => weight * flipped + other * kept,
        }
    }
}
