//! The batches of images that are still to be written.
ghost use Rattle.std.specs.Prelude.{◌≡◌, [], ◌∷◌, IfOk, MatchOption, true, false};
ghost use Rattle.kx_processor.specs.Batches.{without_first};
ghost use Rattle.kx_system.specs.Processor.{takes_another, with_another, with_image};

use kx_client::Values;
use kx_message::Bytes;
use std::alloc::AllocError;
use std::marker::Model;

// This many images make a batch.
const MOST_IMAGES: usize = 100;

// Batches in a row, those in front of which are written.
#[derive(Drop)]
pub(crate) struct Batches {
    batches: Vec<Values>,
    written: usize,
}

impl Model for Batches {
    ghost use Rattle.std.specs.Prelude.{List, drop};
    ghost use Rattle.kx_client.specs.declared.values.Values.{Values};

    ghost Value = { List Values };

    ghost view = { λ b. drop b.written b.batches.items };
}

// Puts an image into a batch, unless it is full; then the image is given back.
fn add(values: &mut Values, image: Bytes) -> Result<Option<Bytes>, AllocError>
    ensures { IfOk result (λ back. MatchOption back
        ((takes_another values.old image ≡ true) × (values.new ≡ with_another values.old image))
        (λ same. (takes_another values.old image ≡ false) × (same ≡ image)
        × (values.new ≡ values.old))) }
{
    if values.count() < MOST_IMAGES {
        values.push(image)
    } else {
        Ok(Some(image))
    }
}

// Puts an image into the last of some batches, or into one of its own if that is full. If
// memory is refused, they are no longer of use.
pub(crate) fn put(batches: &mut Vec<Values>, image: Bytes) -> Result<(), AllocError>
    ensures { IfOk result (λ _. batches.new.items ≡ with_image batches.old.items image) }
{
    let alloc = *batches.allocator();
    let Some(mut last) = batches.pop() else {
        batches.push(Values::one(alloc, image))?;
        return Ok(());
    };
    let back = add(&mut last, image)?;
    batches.push(last)?;
    if let Some(image) = back {
        batches.push(Values::one(alloc, image))?;
    }
    Ok(())
}

impl Batches {
    // These batches, of which none is written.
    pub(crate) fn new(batches: Vec<Values>) -> Batches
        ensures { result ≡ batches.items }
    {
        Batches {
            batches,
            written: 0,
        }
    }

    // The first of them, borrowed.
    pub(crate) fn first(&self) -> Option<&Values>
        ensures { MatchOption result (self.now ≡ [])
            (λ first. self.now ≡ first.now ∷ without_first self.now) }
    {
        self.batches.get(self.written)
    }

    // The first of them is written.
    pub(crate) fn advance(&mut self)
        ensures { self.new ≡ without_first self.old }
    {
        if self.written < self.batches.len() {
            self.written += 1;
        }
    }
}
