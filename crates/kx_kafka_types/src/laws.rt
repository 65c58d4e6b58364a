//! Laws of the definitions, for any fields in any version.
ghost use Rattle.std.specs.Prelude.{◌≡◌, ◌++◌, ◌<◌, ℕ, List, length, Ok, Err};
ghost use Rattle.kx_varint.specs.Text.{IsBytes};
ghost use Rattle.kx_kafka_types.specs.declared.version.Version.{Version};
ghost use Rattle.kx_kafka_types.specs.declared.fault.KafkaFault.{KafkaFault};
ghost use Rattle.kx_kafka_types.specs.Schema.{Fields, Values};
ghost use Rattle.kx_kafka_types.specs.Reading.{fields_at};
ghost use Rattle.kx_kafka_types.specs.Writing.{fields_text, fields_onto, Fits};
ghost use Rattle.kx_kafka_types.specs.Spelling.{Spells};
ghost use Rattle.kx_kafka_types.specs.Seen.{seen};

use crate::fault::KafkaFault;

/// A law: fields are read exactly if a text spells them, whatever follows it; a text spells at
/// most one list of values; and if a text is cut short, reading it is [`KafkaFault::Short`].
pub fn fields_are_read_as_spelled()
    ensures found { (version : Version) (fields : Fields) (bytes rest : List ℕ)
        (v : Values fields) → IsBytes bytes → fields_at version fields bytes ≡ Ok (v, rest)
        → (text : List ℕ) × Spells version fields v text × (bytes ≡ text ++ rest) }
    ensures only { (version : Version) (fields : Fields) (text rest : List ℕ)
        (v : Values fields) → Spells version fields v text
        → fields_at version fields (text ++ rest) ≡ Ok (v, rest) }
    ensures one { (version : Version) (fields : Fields) (text : List ℕ) (v w : Values fields)
        → Spells version fields v text → Spells version fields w text → v ≡ w }
    ensures cut { (version : Version) (fields : Fields) (text more : List ℕ)
        (v : Values fields) → IsBytes (text ++ more) → 0 < length more
        → Spells version fields v (text ++ more)
        → fields_at version fields text ≡ Err KafkaFault.Short }
{}

/// A law: what is written of values that fit spells them, as the version has them, and so is read
/// back; and it is what [`Writes::put`](crate::Writes::put) appends.
pub fn written_fields_are_spelled()
    ensures spelled { (version : Version) (fields : Fields) (v : Values fields)
        → Fits version fields v
        → Spells version fields (seen version fields v) (fields_text version fields v) }
    ensures appended { (version : Version) (fields : Fields) (v : Values fields)
        (front : List ℕ)
        → fields_onto version fields v front ≡ front ++ fields_text version fields v }
{}
