//! Which names Kafka allows for topics.
ghost use Rattle.std.specs.Prelude.{◌≡◌};
ghost use Rattle.std.specs.List.{list_all};
ghost use Rattle.kx_gateway.specs.Topics.{are_dots, has_name_length, is_name_byte, is_topic_name};

// How many bytes a name has at most.
const LONGEST: usize = 249;

// An ASCII letter or digit, or one of `.`, `_` and `-`.
fn is_name_byte(byte: u8) -> bool
    ensures { result ≡ is_name_byte byte }
{
    byte.is_ascii_alphanumeric() || matches!(byte, b'.' | b'_' | b'-')
}

fn are_name_bytes(name: &[u8]) -> bool
    ensures { result ≡ list_all is_name_byte name.now }
{
    for byte in name {
        if !is_name_byte(*byte) {
            return false;
        }
    }
    true
}

fn has_name_length(name: &[u8]) -> bool
    ensures { result ≡ has_name_length name.now }
{
    !name.is_empty() && name.len() <= LONGEST
}

// Paths on disk have a meaning of their own for these.
fn are_dots(name: &[u8]) -> bool
    ensures { result ≡ are_dots name.now }
{
    name == b".".as_slice() || name == b"..".as_slice()
}

/// Whether Kafka allows the name for a topic: 1 to 249 bytes of ASCII letters, digits, `.`, `_` and
/// `-`, and neither `.` nor `..`.
pub fn is_topic_name(name: &[u8]) -> bool
    ensures { result ≡ is_topic_name name.now }
{
    has_name_length(name) && are_name_bytes(name) && !are_dots(name)
}
