//! The input partitions that a member of a group owns.
ghost use Rattle.std.specs.Prelude.{◌≡◌, ◌∷◌, [], MatchOption};
ghost use Rattle.kx_processor.specs.Internal.{left_of};
ghost use Rattle.kx_system.specs.Processor.{owned};

use crate::inputs::{Input, Inputs};

// Those of the input partitions from one on that a member owns, which has this number among this
// many members.
#[derive(Clone, Copy)]
pub(crate) struct Owned {
    number: u16,
    count: u16,
    inputs: Inputs,
    from: u8,
}

impl Owned {
    // All that the member owns.
    pub(crate) fn all(number: u16, count: u16, inputs: Inputs) -> Owned
        ensures { left_of result ≡ owned number count inputs }
    {
        Owned {
            number,
            count,
            inputs,
            from: 0,
        }
    }

    // Takes the lowest of them.
    pub(crate) fn next(&mut self) -> Option<Input>
        ensures { MatchOption result (left_of self.old ≡ [])
            (λ input. left_of self.old ≡ input ∷ left_of self.new) }
    {
        while self.from < self.inputs.get() {
            let from = self.from;
            self.from += 1;
            if self.count != 0 && u16::from(from) % self.count == self.number {
                return Some(Input::of(from));
            }
        }
        None
    }
}
