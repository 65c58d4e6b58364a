//! Answers to many inputs in a row, told by where they change.
ghost use Rattle.std.specs.Prelude.{◌≡◌, IfOk, OnErr, OnOk, string_bytes};
ghost use Rattle.kx_cases.specs.Runs.{no_runs, pushed, written};

use std::alloc::{AllocError, Global};
use std::marker::Model;

/// Answers to inputs that are numbered in a row, as `0..67 Short; 68 1`: each answer once, with the
/// first and the last number that it was given for.
#[derive(Drop)]
pub struct Runs {
    text: String,
    first: usize,
    last: usize,
    answer: Option<String>,
}

impl Model for Runs {
    ghost use Rattle.std.specs.Prelude.{option_map, string_bytes};
    ghost use Rattle.kx_cases.specs.Runs as runs;

    ghost Value = { runs.Runs };

    ghost view = { λ r. record {
      text = string_bytes r.text;
      run = option_map (λ a. record {
        first = r.first;
        last = r.last;
        answer = string_bytes a;
      }) r.answer;
    } };
}

impl Runs {
    /// A run without answers.
    pub fn new(alloc: Global) -> Self
        ensures { result ≡ no_runs }
    {
        Runs {
            text: String::new(alloc),
            first: 0,
            last: 0,
            answer: None,
        }
    }

    // Writes the answers that are alike and come last.
    fn close(&mut self) -> Result<(), AllocError>
        ensures ok { OnOk result (self.new.text ≡ written self.old.text self.old.run) }
        ensures run { self.new.run ≡ self.old.run }
    {
        let Some(answer) = &self.answer else {
            return Ok(());
        };
        let parted = if self.text.is_empty() { "" } else { "; " };
        self.text.push_str(parted)?;
        if self.first == self.last {
            write!(self.text, "{} {answer}", self.first)
        } else {
            write!(self.text, "{}..{} {answer}", self.first, self.last)
        }
    }

    /// The answer to the input of this number, which comes after those before it. Without memory it
    /// isn't kept, and what was written of those before it isn't known.
    pub fn push(&mut self, number: usize, answer: String) -> Result<(), AllocError>
        ensures ok { OnOk result (self.new ≡
            pushed self.old.text self.old.run number (string_bytes answer)) }
        ensures memory { OnErr result (self.new.run ≡ self.old.run) }
    {
        if let Some(before) = &self.answer
            && before.as_str() == answer.as_str()
        {
            self.last = number;
            return Ok(());
        }
        self.close()?;
        self.first = number;
        self.last = number;
        self.answer = Some(answer);
        Ok(())
    }

    /// All of them.
    pub fn finish(self) -> Result<String, AllocError>
        ensures { IfOk result (λ text. string_bytes text ≡ written self.text self.run) }
    {
        let mut runs = self;
        runs.close()?;
        Ok(runs.text)
    }
}
