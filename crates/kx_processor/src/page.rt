//! The images of the records of a page, and where a page leads.
ghost use Rattle.std.specs.Prelude.{◌≡◌, IfOk, Ok, map, ℤ};
ghost use Rattle.kx_model.specs.Reading.{committed_of};
ghost use Rattle.kx_processor.specs.Internal.{left_of, stage_of};
ghost use Rattle.kx_system.specs.Processor.{batches_of, paged};

use crate::batches::{Batches, put};
use crate::inputs::Input;
use crate::owned::Owned;
use crate::process::Process;
use crate::stage::Stage;
use kx_client::Values;
use kx_message::Bytes;
use kx_partition::FetchPage;
use kx_reader::Committed;
use std::alloc::{AllocError, Global};

// The images of the records of a page that a reader of committed records gets, in batches.
fn images_of<P: Process>(
    process: &P,
    alloc: Global,
    page: FetchPage<'_>,
) -> Result<Vec<Values>, AllocError>
    ensures { IfOk result (λ batches. batches.items
        ≡ batches_of (map (λ s. P.image_of process.now s.shown) (committed_of page.entry))) }
{
    let mut batches = Vec::new(alloc);
    for (_, of) in Committed::new(alloc, page)? {
        put(&mut batches, Bytes::from_vec(process.image(&of)?))?;
    }
    Ok(batches)
}

// Where a page leads: to the writing of its images, or onward if it has nothing new.
pub(crate) fn behind<P: Process>(
    process: &P,
    alloc: Global,
    input: Input,
    left: Owned,
    page: FetchPage<'_>,
) -> Result<Stage, AllocError>
    ensures { IfOk result (λ stage. (offset : ℤ) → stage_of stage
        ≡ paged (P.image_of process.now) input (left_of left) offset (Ok page.entry)) }
{
    let next = page.next();
    if next <= page.from() {
        return Ok(Stage::onward(left));
    }
    let batches = Batches::new(images_of(process, alloc, page)?);
    Ok(Stage::Writing {
        input,
        left,
        next,
        batches,
    })
}
