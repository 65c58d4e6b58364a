//! The primitive types of Kafka's protocol and structs of fields, read and written.
#![tactic(auto)]

mod array;
mod fault;
mod laws;
mod reader;
mod version;
mod writer;

pub use array::{Array, Reading, Struct};
pub use fault::KafkaFault;
pub use laws::{fields_are_read_as_spelled, written_fields_are_spelled};
pub use reader::{FieldReader, Int32};
pub use version::Version;
pub use writer::{
    Writes, put_array, put_array_since, put_boolean, put_boolean_since, put_bytes, put_end,
    put_i16_since, put_i32_since, put_i64_since, put_nullable_array, put_nullable_bytes,
    put_nullable_text, put_nullable_text_since, put_text,
};
