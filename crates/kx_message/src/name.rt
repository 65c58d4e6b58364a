//! The text that clients choose as the id of a transaction or of a consumer group.
ghost use Rattle.std.specs.Prelude.{◌≡◌, ◌↔◌, IsTrue, Some, nat_eq, refl};
ghost use Rattle.std.specs.Ordering.{nat_cmp};
ghost use Rattle.std.specs.Cmp.{partial_equiv_from_equiv};
ghost use Rattle.std.specs.Cmp.Lexicographic.{pointwise, slice_cmp, nat_list_eq_equiv};
ghost use Rattle.std.specs.Cmp.Lexicographic.{nat_list_cmp_total, texts_po, texts_ties};
ghost use Rattle.std.specs.Cmp.Rules.{hashing};
ghost use Rattle.std.specs.Hash as fed;
ghost use Rattle.std.proofs.Common.{rules};
ghost use Rattle.kx_message.specs.Ranges.{IsName};
ghost use Rattle.kx_message.specs.Names.{TakesName};

use crate::fault::ValueFault;
use std::cmp::Ordering;
use std::hash::{Hash, Hasher};
use std::marker::Model;
use std::{fmt, str};

/// The most bytes of a name.
const LONGEST: usize = 64;

/// A name's bytes, held in the value itself so that it is `Copy`.
#[derive(Clone, Copy)]
pub(crate) struct Name {
    // Zeros follow the name, so that its bytes alone give the fields back, as `Copy` needs.
    room: [u8; LONGEST],
    len: usize,
}

impl Model for Name {
    ghost use Rattle.std.specs.Prelude.{ℕ, List, ◌++◌, length, take};
    ghost use Rattle.kx_message.specs.Names.{HoldsName, padding, name-padding, length-name};

    ghost Value = { List ℕ };

    ghost view = { λ name. take name.len name.room };

    ghost invariant = { λ name. HoldsName name.room name.len };

    ghost inverse = { λ text. record { room = text ++ padding text; len = length text } };

    ghost inverse_ok = { λ name h i. record {
      room = name-padding name.room name.len h i;
      len = length-name name.room name.len h i;
    } };
}

/// Whether the text is a name.
fn is_name(text: &[u8]) -> bool
    ensures { IsTrue result ↔ IsName text.now }
{
    !text.is_empty() && text.len() <= LONGEST && text.iter().all(u8::is_ascii_graphic)
}

impl Name {
    pub(crate) fn as_bytes(&self) -> &[u8]
        ensures value { result.now ≡ self.now }
        ensures within { IsName self.now }
    {
        &self.room[..self.len]
    }

    pub(crate) fn as_str(&self) -> &str
        ensures { result.now ≡ self.now }
    {
        str::from_utf8(self.as_bytes()).unwrap()
    }
}

impl TryFrom<&[u8]> for Name {
    type Error = ValueFault;

    ghost try_from_gives = { λ text r. TakesName text.now r };

    fn try_from(text: &[u8]) -> Result<Self, ValueFault> {
        if !is_name(text) {
            return Err(ValueFault::Name);
        }
        let mut room = [0; LONGEST];
        room[..text.len()].copy_from_slice(text);
        Ok(Name {
            room,
            len: text.len(),
        })
    }
}

impl PartialEq for Name {
    ghost eq = { pointwise nat_eq };

    ghost laws = { partial_equiv_from_equiv nat_list_eq_equiv };

    fn eq(&self, other: &Self) -> bool {
        self.as_str() == other.as_str()
    }
}

impl Eq for Name {
    ghost laws = { nat_list_eq_equiv };
}

impl PartialOrd for Name {
    ghost partial_cmp = { λ x y. Some (slice_cmp nat_cmp x y) };

    ghost laws = { texts_po };

    fn partial_cmp(&self, other: &Self) -> Option<Ordering> {
        Some(self.cmp(other))
    }
}

impl Ord for Name {
    ghost cmp = { slice_cmp nat_cmp };

    ghost total = { nat_list_cmp_total };

    ghost matches_partial_cmp = { λ x y. refl };

    ghost matches_eq = { texts_ties };

    fn cmp(&self, other: &Self) -> Ordering {
        self.as_str().cmp(other.as_str())
    }
}

impl Hash for Name {
    ghost hash_input = { fed.str };

    ghost respects_eq = { Prim.search (hashing, rules) };

    fn hash<H: Hasher>(&self, state: &mut H) {
        self.as_str().hash(state);
    }
}

impl fmt::Debug for Name {
    fn fmt<W: fmt::Write>(&self, f: &mut fmt::Formatter<W>) -> fmt::Result {
        fmt::Debug::fmt(self.as_str(), f)
    }
}
