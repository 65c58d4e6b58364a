//! That groups are as before when their log is read again, that what is kept of them follows it,
//! and that offsets whose transaction is yet to be verified begin at sequence 0.
ghost use Rattle.std.specs.Prelude.{◌≡◌, ◌++◌, ◌∷◌, [], ℕ, ℤ, pos, Bool, true, false, List};
ghost use Rattle.std.specs.Prelude.{Some};
ghost use Rattle.std.specs.List.{AllByRecursion};
ghost use Rattle.kx_batch.specs.Record.{Record};
ghost use Rattle.kx_commits.specs.Follows.{AllInTransactions, said_by};
ghost use Rattle.kx_commits.specs.Kept.{Kept, ended, noted_all, nothing};
ghost use Rattle.kx_group.specs.Follows.{Follows, said_at};
ghost use Rattle.kx_group.specs.Log.{IsFitting, IsGroupLog, IsUnfit, is_offset};
ghost use Rattle.kx_laws.specs.Grown.{IsGrown};
ghost use Rattle.kx_members.specs.Follows.{Makes};
ghost use Rattle.kx_members.specs.Standing.{Standing, after, unknown};
ghost use Rattle.kx_message.specs.declared.message.Held.{Held};
ghost use Rattle.kx_message.specs.declared.payload.PartitionOffset.{PartitionOffset};
ghost use Rattle.kx_model.specs.Groups.{Fact, fact_of, judge_offsets, membership_text};
ghost use Rattle.kx_model.specs.Groups.{offsets_batch};
ghost use Rattle.kx_model.specs.Log.{Control, Data, Entry, Marker, MarkerFits, Plain, Sequenced};
ghost use Rattle.kx_model.specs.Log.{Stored, end, entries, entry_of};
ghost use Rattle.kx_model.specs.Produce.{Appends, Next, Unverified, judge, judge_marker};
ghost use Rattle.kx_model.specs.Produce.{judge_text};
ghost use Rattle.kx_model.specs.Produce.{stored_at, text_of};
ghost use Rattle.kx_offsets.specs.Facts.{CommitFits, FactFits};

/// A log as the groups' tables grew it has no batch that they don't append, so no opening refuses
/// it; and a log with a change of members, a commit of offsets or a marker that they appended is
/// one.
pub fn reopened_groups_are_as_before()
    ensures unfit { (log : List Stored) (place : ℕ) → IsGroupLog log → IsUnfit log place → ⊥ }
    ensures change { (log : List Stored) (fact : Fact) → IsGroupLog log → FactFits fact
        → Makes (entries log) fact
        → IsGroupLog (log ++ stored_at (end (entries log)) (membership_text fact) ∷ []) }
    ensures commit { (log : List Stored) (group : List ℕ) (held : Held) (first : ℕ)
        (offsets : List PartitionOffset) → IsGroupLog log
        → CommitFits group held (pos first) offsets
        → IsGroupLog (log ++ stored_at (end (entries log))
        (offsets_batch group held (pos first) offsets) ∷ []) }
    ensures marker { (log : List Stored) (marker : Marker) → IsGroupLog log → MarkerFits marker
        → IsGroupLog (log ++ stored_at (end (entries log)) (text_of marker) ∷ []) }
    ensures in_transactions { (log : List Stored) → IsGroupLog log
        → AllInTransactions (entries log) }
{}

/// What is kept of groups is that of their log: nothing for the empty log, and for the log with one
/// more batch what the batch changes, be it read of a log or appended to it.
pub fn groups_follow_their_log()
    ensures empty { Follows [] (λ group. unknown) nothing }
    ensures read_change { (log : List Entry) (standing : List ℕ → Standing) (kept : Kept)
        (r : Record) (fact : Fact) → Follows log standing kept
        → fact_of r ≡ Some fact → Makes log fact
        → Follows (log ++ Plain (r ∷ []) ∷ [])
        (λ group. after fact group (standing group)) kept }
    ensures read_offsets { (log : List Entry) (standing : List ℕ → Standing) (kept : Kept)
        (verified : Bool) (batch : Sequenced) → Follows log standing kept
        → judge log verified batch ≡ Next → batch.transactional ≡ true
        → AllByRecursion (λ r. is_offset (fact_of r) ≡ true) batch.records
        → Follows (log ++ Data batch ∷ []) standing
        (noted_all batch.id (said_by (record { offset = end log; item = batch })) kept) }
    ensures read_marker { (log : List Stored) (standing : List ℕ → Standing) (kept : Kept)
        (marker : Marker) → IsGroupLog log → Follows (entries log) standing kept → IsGrown log
        → judge_marker (entries log) marker ≡ Appends
        → Follows (entries log ++ Control marker ∷ []) standing
        (ended marker.id marker.outcome kept) }
    ensures change { (log : List Stored) (standing : List ℕ → Standing) (kept : Kept)
        (fact : Fact) → Follows (entries log) standing kept → FactFits fact
        → Makes (entries log) fact
        → Follows (entries (log ++ stored_at (end (entries log)) (membership_text fact) ∷ []))
        (λ group. after fact group (standing group)) kept }
    ensures commit { (log : List Stored) (standing : List ℕ → Standing) (kept : Kept)
        (verified : Bool) (group : List ℕ) (held : Held) (first : ℕ)
        (offsets : List PartitionOffset) → Follows (entries log) standing kept
        → CommitFits group held (pos first) offsets
        → judge_text (entries log) verified (offsets_batch group held (pos first) offsets) ≡ Next
        → Follows (entries (log ++ stored_at (end (entries log))
        (offsets_batch group held (pos first) offsets) ∷ [])) standing
        (noted_all held.id (said_at (end (entries log)) group offsets) kept) }
    ensures marker { (log : List Stored) (standing : List ℕ → Standing) (kept : Kept)
        (marker : Marker) → IsGroupLog log → Follows (entries log) standing kept → IsGrown log
        → MarkerFits marker → judge_marker (entries log) marker ≡ Appends
        → Follows (entries (log ++ stored_at (end (entries log)) (text_of marker) ∷ [])) standing
        (ended marker.id marker.outcome kept) }
{}

/// Offsets whose transaction is yet to be verified begin at sequence 0, in a log that groups grew:
/// no batch of their id and epoch is in it. So commits of one id and epoch that are parked for
/// the coordinator's answer begin at one sequence.
pub fn unverified_commits_begin_at_0()
    ensures { (log : List Stored) (group : List ℕ) (member : ℕ) (named : ℤ) (held : Held)
        (first : ℕ) (offsets : List PartitionOffset) → IsGrown log → IsGroupLog log
        → CommitFits group held (pos first) offsets
        → judge_offsets (entries log) false group member named
        (offsets_batch group held (pos first) offsets) ≡ Unverified → first ≡ 0 }
{}
