//! Streams of frames: [`FrameReader`] reads their messages, whatever the pieces in which the bytes
//! arrive, [`send`] writes a message, and [`serve_stream`] serves a stream with one machine, which
//! takes each message and whose replies are written in order. Reader, writer and machine are any;
//! the contracts say what was read, what the machine did with it, and what was written.
#![tactic(auto)]

mod fault;
mod pages;
mod reader;
mod sending;
mod serving;
mod stream;

pub use fault::StreamFault;
pub use pages::served_pages_are_read;
pub use reader::FrameReader;
pub use sending::send;
pub use stream::serve_stream;
