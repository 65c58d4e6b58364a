//! One aborted transaction.
ghost use Rattle.std.specs.Prelude.{◌≡◌, ◌≤ℤ◌, pos};
ghost use Rattle.std.specs.Int.RustNames.{unsigned_abs};

use kx_message::ProducerId;
use std::marker::Model;

/// A transaction that was aborted at a partition (KIP-98, "READ_COMMITTED"): the id of its
/// producer, the offsets of its first record and of its marker, and the last stable offset of the
/// log up to and with the marker.
#[derive(Clone, Copy, Debug, PartialEq, Eq)]
pub struct Aborted {
    id: ProducerId,
    first: u64,
    last: u64,
    stable: u64,
}

impl Model for Aborted {
    ghost use Rattle.std.specs.Prelude.{◌<◌, ◌^◌};
    ghost use Rattle.kx_model.specs.Page as page;

    ghost Value = { page.Aborted };

    ghost view = { λ a. record {
      id = a.id;
      first = a.first;
      last = a.last;
      stable = a.stable;
    } };

    ghost invariant = { λ a. (a.first < 2 ^ 63) × (a.last < 2 ^ 63) × (a.stable < 2 ^ 63) };

    ghost inverse = { λ value. record {
      id = value.id;
      first = value.first;
      last = value.last;
      stable = value.stable;
    } };
}

impl Aborted {
    /// The transaction of this producer, by its first offset, the offset of its marker, and the
    /// last stable offset of the log up to and with the marker.
    pub fn new(id: ProducerId, first: i64, last: i64, stable: i64) -> Aborted
        requires first_in { pos 0 ≤ℤ first }
        requires last_in { pos 0 ≤ℤ last }
        requires stable_in { pos 0 ≤ℤ stable }
        ensures { result ≡ record {
          id = id;
          first = unsigned_abs first;
          last = unsigned_abs last;
          stable = unsigned_abs stable;
        } }
    {
        Aborted {
            id,
            first: first as u64,
            last: last as u64,
            stable: stable as u64,
        }
    }

    /// The id of its producer.
    pub fn id(&self) -> ProducerId
        ensures { result ≡ self.now.id }
    {
        self.id
    }

    /// The offset of its first record at the partition.
    pub fn first(&self) -> i64
        ensures { result ≡ pos self.now.first }
    {
        self.first as i64
    }

    /// The offset of the marker that aborted it.
    pub fn last(&self) -> i64
        ensures { result ≡ pos self.now.last }
    {
        self.last as i64
    }

    /// The last stable offset of the log up to and with its marker.
    pub fn stable(&self) -> i64
        ensures { result ≡ pos self.now.stable }
    {
        self.stable as i64
    }
}
