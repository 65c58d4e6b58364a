//! A whole number within bounds.
ghost use Rattle.std.specs.Prelude.{◌≡◌, MatchOption};
ghost use Rattle.kx_bounded.specs.Bounds.{IsWithin};

use std::marker::Model;

/// A whole number from `LEAST` to `MOST`, both included.
#[derive(Clone, Copy, Debug, PartialEq, Eq)]
pub struct Bounded<const LEAST: u16, const MOST: u16>(u16);

impl<const LEAST: u16, const MOST: u16> Model for Bounded<LEAST, MOST> {
    ghost use Rattle.std.specs.Prelude.{ℕ};
    ghost use Rattle.kx_bounded.specs.Bounds.{IsWithin};

    ghost Value = { ℕ };

    ghost view = { λ number. number.0 };

    ghost invariant = { λ number. IsWithin LEAST MOST number.0 };

    ghost inverse = { λ n. record { 0 = n } };
}

impl<const LEAST: u16, const MOST: u16> Bounded<LEAST, MOST> {
    /// This number, or None if it is out of bounds.
    pub fn new(number: u16) -> Option<Bounded<LEAST, MOST>>
        ensures { MatchOption result (IsWithin LEAST MOST number → ⊥)
            (λ it. (it ≡ number) × IsWithin LEAST MOST number) }
    {
        if number < LEAST || MOST < number {
            return None;
        }
        Some(Bounded(number))
    }

    /// The number.
    pub fn get(self) -> u16
        ensures value { result ≡ self.entry }
        ensures within { IsWithin LEAST MOST self.entry }
    {
        self.0
    }
}
