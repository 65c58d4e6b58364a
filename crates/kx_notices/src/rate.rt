//! How many lines are written in a second.
ghost use Rattle.std.specs.Prelude.{◌≡◌, ◌≢◌, ◌+◌, ◌↔◌, min, true};
ghost use Rattle.kx_notices.specs.Rates.{EachIsCounted, FewPass, admitted, most_counted, passes};
ghost use Rattle.kx_notices.specs.Rates.{told, turned};

/// How many lines are written at most in a second.
pub const MOST_LINES: u64 = 100;

// A second, in milliseconds.
const SECOND: u64 = 1000;

/// The lines of the second that goes on, by a clock that begins whenever it likes.
#[derive(Clone, Copy, Debug, Drop)]
pub struct Rate {
    // which second
    pub(crate) second: u64,
    // how many lines are written in it
    pub(crate) passed: u64,
    // how many are left out, of which nothing is told yet
    pub(crate) left_out: u64,
}

impl Rate {
    /// No line is written yet.
    pub fn new() -> Rate
        ensures { result ≡ record { second = 0; passed = 0; left_out = 0 } }
    {
        Rate {
            second: 0,
            passed: 0,
            left_out: 0,
        }
    }

    /// It is this time, in milliseconds. Returns how many lines were left out in a second before, of
    /// which nothing was told yet; unless they are none, their line is the first of its second.
    pub fn turn(&mut self, now: u64) -> u64
        ensures after { self.new ≡ turned self.old now }
        ensures told { result ≡ told self.old now }
    {
        let second = now / SECOND;
        if second == self.second {
            return 0;
        }
        let told = self.left_out;
        *self = Rate {
            second,
            passed: if told == 0 { 0 } else { 1 },
            left_out: 0,
        };
        told
    }

    /// A notice in this second: says whether its line is written, else it is counted.
    pub fn admit(&mut self) -> bool
        ensures after { self.new ≡ admitted self.old }
        ensures passes { result ≡ passes self.old }
    {
        if self.passed < MOST_LINES {
            self.passed += 1;
            return true;
        }
        self.left_out = self.left_out.saturating_add(1);
        false
    }

    /// Counts `count` notices that were dropped before they arrived.
    pub fn lose(&mut self, count: u64)
        ensures { self.new ≡ record self.old {
          left_out = min (self.old.left_out + count) most_counted;
        } }
    {
        self.left_out = self.left_out.saturating_add(count);
    }

    /// Whether lines are left out of which nothing is told yet.
    pub fn owes(&self) -> bool
        ensures { result ≡ true ↔ (self.now.left_out ≢ 0) }
    {
        self.left_out != 0
    }
}

/// At most 100 lines are written in any one second.
pub fn few_pass_in_a_second()
    ensures { FewPass }
{}

/// Each notice passes, is told to be left out, or is still to be told.
pub fn each_notice_passes_or_is_counted()
    ensures { EachIsCounted }
{}
