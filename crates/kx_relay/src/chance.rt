//! Which frames are lost.
//!
//! One generator draws for all frames, in whatever order they arrive, so a seed doesn't determine a
//! run of threads.
ghost use Rattle.std.specs.Prelude.{◌≡◌};
ghost use Rattle.std.specs.Bool.{Decides};
ghost use Rattle.kx_relay.specs.Chance.{IsLost, next_draw};

use crate::share::Losses;
use std::marker::Model;

// The generator's factor and summand.
const FACTOR: u64 = 6_364_136_223_846_793_005;

const SUMMAND: u64 = 1_442_695_040_888_963_407;

/// Draws for each frame whether it is lost: by a linear congruential generator over 64 bits, whose
/// factor is Knuth's for MMIX. The same seed draws the same.
#[derive(Debug, Drop)]
pub struct Chance {
    drawn: u64,
}

impl Model for Chance {
    ghost use Rattle.std.specs.Prelude.{ℕ};

    ghost Value = { ℕ };

    ghost view = { λ chance. chance.drawn };
}

impl Chance {
    /// Draws from this seed on.
    pub fn new(seed: u64) -> Chance
        ensures { result ≡ seed }
    {
        Chance { drawn: seed }
    }

    /// Draws for the next frame: whether it is lost, if this many of a hundred are.
    pub fn loses(&mut self, losses: Losses) -> bool
        ensures drawn { self.new ≡ next_draw self.old }
        ensures lost { Decides result (IsLost losses (next_draw self.old)) }
    {
        self.drawn = self.drawn.wrapping_mul(FACTOR).wrapping_add(SUMMAND);
        (self.drawn >> 33) % 100 < u64::from(losses.get())
    }
}
