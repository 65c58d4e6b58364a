//! Numbers as every format above spells them. Varints are in groups of seven bits, lowest group
//! first; numbers of fixed width stand highest byte first. The definitions by which a format of
//! many fields is stated and read are in this crate's `specs/` as well.
#![tactic(auto)]

mod fault;
mod fixed;
mod groups;

pub use fault::VarFault;
pub use fixed::{
    i16_at, i32_at, i64_at, numbers_have_place_value, put_i8, put_i16, put_i32, put_i64, put_u8,
    put_u16, put_u32, put_u64, read_i8, read_i16, read_i32, read_i64, read_u8, read_u16, read_u32,
    read_u64, u32_at,
};
pub use groups::{
    known_varint, known_varlong, put_varint, put_varlong, read_varint, read_varlong, varint_len,
    varints_are_read_again,
};
