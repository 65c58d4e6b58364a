//! A process whose images differ from their records by one byte in front.
use crate::process::Process;
use kx_batch::RecordView;
use std::alloc::{AllocError, Global};

/// The process of the processors of scripts and demonstrations: the image of a record is the byte
/// `o` followed by the record's value, if it has one.
#[derive(Clone, Copy, Debug)]
pub struct Prefixed {
    alloc: Global,
}

impl Prefixed {
    /// A process that allocates images with `alloc`.
    pub fn new(alloc: Global) -> Prefixed {
        Prefixed { alloc }
    }
}

impl Process for Prefixed {
    ghost use Rattle.kx_processor.specs.Prefixed.{image_is_bytes, image_of};

    ghost image_of = { λ process. image_of };

    ghost are_bytes = { λ process. image_is_bytes };

    fn image(&self, of: &RecordView<'_>) -> Result<Vec<u8>, AllocError> {
        let value = of.value().unwrap_or(&[]);
        let mut image = Vec::with_capacity(self.alloc, value.len().saturating_add(1))?;
        image.push(b'o')?;
        image.extend_from_slice(value)?;
        Ok(image)
    }
}
