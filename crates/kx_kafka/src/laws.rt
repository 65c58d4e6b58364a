//! Laws of the definitions of requests and of frames.
ghost use Rattle.std.specs.Prelude.{◌≡◌, ◌++◌, ◌∷◌, ◌<◌, ℕ, List, [], length, Ok, Err, false};
ghost use Rattle.kx_varint.specs.Text.{IsBytes};
ghost use Rattle.kx_kafka_types.specs.declared.fault.KafkaFault.{KafkaFault};
ghost use Rattle.kx_kafka.specs.Requests.{Header, Body, request_at};
ghost use Rattle.kx_kafka.specs.Spelling.{SpellsRequest};
ghost use Rattle.kx_kafka.specs.Frames.{Whole, More, Beyond, FitsFrame, frame_at, frame_text};
ghost use Rattle.kx_kafka.specs.Frames.{joined, Comes};
ghost use Rattle.std.specs.List.{flat_map, AllByRecursion};

use kx_kafka_types::KafkaFault;

/// A law: a request is read exactly if the whole text spells it, so a text spells at most one;
/// if the text is cut short it is [`KafkaFault::Short`], and if bytes follow
/// [`KafkaFault::TooLong`]. In a version that isn't flexible no other text is read as the same
/// request: with a byte changed it is refused, or another one. (In a flexible version tagged fields
/// are skipped, and a number may have more groups than it needs.)
pub fn requests_are_read_as_spelled()
    ensures found { (text : List ℕ) (x : Header × Body) → IsBytes text → request_at text ≡ Ok x
        → SpellsRequest x.0 x.1 text }
    ensures only { (header : Header) (body : Body) (text : List ℕ)
        → SpellsRequest header body text → request_at text ≡ Ok (header, body) }
    ensures cut { (header : Header) (body : Body) (text more : List ℕ) → IsBytes (text ++ more)
        → 0 < length more → SpellsRequest header body (text ++ more)
        → request_at text ≡ Err KafkaFault.Short }
    ensures longer { (header : Header) (body : Body) (text : List ℕ) (byte : ℕ) (more : List ℕ)
        → SpellsRequest header body text
        → request_at (text ++ byte ∷ more) ≡ Err KafkaFault.TooLong }
    ensures changed { (header : Header) (body : Body) (text other : List ℕ) → IsBytes other
        → header.version.flexible ≡ false → SpellsRequest header body text
        → request_at other ≡ Ok (header, body) → other ≡ text }
{}

/// A law: a text of at most 2097152 bytes after its length is read as that text, whatever follows
/// it, and what is read as a text stands so; a frame that is cut short needs more, and what is
/// at the front stays when more comes. So the frames of a stream come as their texts, in whatever
/// pieces it is fed to [`Frames`](crate::Frames).
pub fn frames_are_read_as_written()
    ensures again { (text rest : List ℕ) → FitsFrame text
        → frame_at (frame_text text ++ rest) ≡ Whole text rest }
    ensures only { (bytes text rest : List ℕ) → IsBytes bytes → frame_at bytes ≡ Whole text rest
        → FitsFrame text × (bytes ≡ frame_text text ++ rest) }
    ensures cut { (text front more : List ℕ) → FitsFrame text → 0 < length more
        → frame_text text ≡ front ++ more → frame_at front ≡ More }
    ensures stays { (bytes more text rest : List ℕ) → frame_at bytes ≡ Whole text rest
        → frame_at (bytes ++ more) ≡ Whole text (rest ++ more) }
    ensures beyond { (bytes more : List ℕ) → frame_at bytes ≡ Beyond
        → frame_at (bytes ++ more) ≡ Beyond }
    ensures pieces { (pieces texts : List (List ℕ)) → AllByRecursion FitsFrame texts
        → joined pieces ≡ flat_map frame_text texts → Comes [] pieces texts }
{}
