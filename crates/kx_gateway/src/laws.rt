//! Laws of the definitions.
ghost use Rattle.std.specs.Prelude.{◌≡◌, ◌<◌, ◌≤◌, ◌∷◌, ◌++◌, ℕ, ℤ, max, List, length, All, IsTrue};
ghost use Rattle.std.specs.Prelude.{Some};
ghost use Rattle.kx_batch.specs.Batch.{batch_limit};
ghost use Rattle.kx_gateway.specs.Fetch.{budget_of, bytes_of, sent_of};
ghost use Rattle.kx_message.specs.Ranges.{data_partitions};
ghost use Rattle.kx_gateway.specs.Topics.{Entry, IsTable, partition_at};
ghost use Rattle.kx_gateway.specs.TableFile.{AreLines, IsBadLine, lacks, table_text};

/// A law: a topic that is made moves no partition of those before it, each partition of a topic is
/// one of the core's data partitions, and no two are the same.
pub fn topics_keep_their_partitions()
    ensures stays { (table more : List Entry) (name : List ℕ) (index : ℤ) (p : ℕ)
        → partition_at table name index ≡ Some p
        → partition_at (table ++ more) name index ≡ Some p }
    ensures within { (table : List Entry) (name : List ℕ) (index : ℤ) (p : ℕ) → IsTable table
        → partition_at table name index ≡ Some p → p < data_partitions }
    ensures apart { (table : List Entry) (name other : List ℕ) (index place : ℤ) (p : ℕ)
        → partition_at table name index ≡ Some p → partition_at table other place ≡ Some p
        → (name ≡ other) × (index ≡ place) }
{}

/// A law: the lines of a table, and then less than a line, are the lines of no other table, and no
/// line of them is damaged; so [`read_topics`](crate::read_topics) reads them as that table.
pub fn lines_are_read_as_written()
    ensures again { (text : List ℕ) (table found : List Entry) (torn : List ℕ) (len : ℕ)
        → IsTable table → IsTable found → IsTrue (lacks 10 torn)
        → text ≡ table_text table ++ torn → AreLines text found len
        → (found ≡ table) × (len ≡ length (table_text table)) }
    ensures whole { (text : List ℕ) (table : List Entry) (torn : List ℕ) (number : ℕ)
        → IsTable table → IsTrue (lacks 10 torn) → text ≡ table_text table ++ torn
        → IsBadLine text number → ⊥ }
{}

/// A law: if no partition's page is longer than the largest batch, neither are the records of a
/// response; and they are no longer than the request's limit, or than the first page that has some.
pub fn fetches_stay_within_limits()
    ensures room { (most : ℤ) (pages : List (ℤ × ℕ)) → All (λ page. page.1 ≤ batch_limit) pages
        → sent_of (budget_of most) pages ≤ batch_limit }
    ensures limit { (most limit : ℤ) (len : ℕ) (pages : List (ℤ × ℕ)) → 0 < len
        → sent_of (budget_of most) ((limit, len) ∷ pages) ≤ max len (bytes_of most) }
{}
