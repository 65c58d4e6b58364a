//! What whoever runs a server is told: notices, the line of each, and how many lines there are in a
//! second. A notice is one line, whatever a client sent. Who writes the lines is kx_server's.
#![tactic(auto)]

mod closing;
mod line;
mod moment;
mod notice;
mod rate;
mod said;
mod text;

pub use closing::Closing;
pub use line::{line_of, one_notice_is_one_line};
pub use notice::{Notice, Shortage, TopicRefusal, Unserved};
pub use rate::{MOST_LINES, Rate, each_notice_passes_or_is_counted, few_pass_in_a_second};
pub use said::{LONGEST_SAID, Said};
