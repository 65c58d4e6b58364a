//! What is tried.
ghost use Rattle.std.specs.Prelude.{ℕ, List, Option, ⊤};
ghost use Rattle.kx_cases.specs.Tally.{answer_of};

use crate::fault::StepFault;
use crate::texts::Texts;
use std::alloc::Global;

/// What the steps of a file of cases are taken on.
pub trait Subject: Drop {
    // The bytes that it may answer as it stands, or None if it may give no answer: any, if
    // nothing is said of it. So that a step is judged by such an answer is proved for all subjects.
    ghost answers: { Self → Option (List ℕ) → Type 0 } = { λ _ _. ⊤ };

    /// A subject on which no step was taken, as each case begins with it.
    fn new(alloc: Global) -> Self;

    /// Takes the step that these words are, and gives its answer as a file of cases has it.
    fn answer(&mut self, texts: &Texts, words: &[&str]) -> Result<String, StepFault>
        ensures { answers self.old (answer_of result) };
}
