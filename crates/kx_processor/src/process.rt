//! What a processor makes of records.
use kx_batch::RecordView;
use std::alloc::AllocError;

/// What a processor does with each record that it reads.
pub trait Process: Drop {
    ghost use Rattle.std.specs.Prelude.{◌≡◌, IfOk};
    ghost use Rattle.kx_batch.specs.Record.{Record};
    ghost use Rattle.kx_system.specs.Processor.{Images};
    ghost use Rattle.kx_varint.specs.Text.{IsBytes};

    // the image of each record
    ghost image_of: { Self → Images };

    /// The image of a record, which is a function of the record alone: the value of the one record
    /// that is written for it.
    ///
    /// # Errors
    ///
    /// Only if memory runs out.
    fn image(&self, of: &RecordView<'_>) -> Result<Vec<u8>, AllocError>
        ensures { IfOk result (λ image. image.items ≡ image_of self.now of.now) };

    // every record has an image of bytes
    ghost are_bytes: { (process : Self) (record_of : Record)
        → IsBytes (image_of process record_of) };
}
