//! That what is kept of groups' offsets follows the offsets partition's log.
ghost use Rattle.std.specs.Prelude.{◌≡◌, ◌≤◌, ℕ, ℤ, negsuc, Bool, true, List, [], ◌∷◌, ◌++◌};
ghost use Rattle.std.specs.Prelude.{nat_lt, unwrap_or};
ghost use Rattle.std.specs.Option.{option_map};
ghost use Rattle.kx_batch.specs.Record.{Record};
ghost use Rattle.kx_commits.specs.Follows.{AllInTransactions, StandsFor, said_by};
ghost use Rattle.kx_commits.specs.Kept.{Kept, Said, SameKept, ended, noted, noted_all, nothing};
ghost use Rattle.kx_laws.specs.Grown.{IsGrown};
ghost use Rattle.kx_message.specs.declared.outcome.Outcome.{Outcome};
ghost use Rattle.kx_model.specs.Groups.{is_pending, marked_offset};
ghost use Rattle.kx_model.specs.Log.{Control, Data, Entry, Marker, Plain, Sequenced, Stored, end};
ghost use Rattle.kx_model.specs.Log.{entries};
ghost use Rattle.kx_model.specs.Produce.{Appends, Next, judge, judge_marker};

/// What is kept stands for the log of the offsets partition: nothing for the empty log, the same
/// for the log with a batch without a producer, what a transactional batch that is to come next
/// says noted for the log with it, and the transaction of a marker that is appended ended for the
/// log with that, if each batch of a producer with an id is one of a transaction. It gives the
/// committed offset by the log's markers, and whether an open transaction has an offset; and of no
/// group and input partition are more offsets pending than the log has offsets. What is noted and
/// ended of the same is the same.
pub fn the_offsets_follow_the_log()
    ensures empty { StandsFor nothing [] }
    ensures same { (kept other : Kept) (log : List Entry) → SameKept other kept
        → StandsFor kept log → StandsFor other log }
    ensures noted_same { (kept other : Kept) (id : ℕ) (said : Said) → SameKept kept other
        → SameKept (noted id said kept) (noted id said other) }
    ensures ended_same { (kept other : Kept) (id : ℕ) (outcome : Outcome) → SameKept kept other
        → SameKept (ended id outcome kept) (ended id outcome other) }
    ensures plain { (kept : Kept) (log : List Entry) (records : List Record)
        → StandsFor kept log → StandsFor kept (log ++ Plain records ∷ []) }
    ensures batch { (kept : Kept) (log : List Entry) (verified : Bool) (batch : Sequenced)
        → StandsFor kept log → judge log verified batch ≡ Next → batch.transactional ≡ true
        → StandsFor (noted_all batch.id
        (said_by (record { offset = end log; item = batch })) kept) (log ++ Data batch ∷ []) }
    ensures marker { (kept : Kept) (log : List Stored) (marker : Marker)
        → StandsFor kept (entries log) → IsGrown log → AllInTransactions (entries log)
        → judge_marker (entries log) marker ≡ Appends
        → StandsFor (ended marker.id marker.outcome kept) (entries log ++ Control marker ∷ []) }
    ensures committed { (kept : Kept) (log : List Entry) (group : List ℕ) (partition : ℕ)
        → StandsFor kept log
        → unwrap_or (option_map (λ c. c.0) (kept.slot group partition).committed) (negsuc 0)
        ≡ marked_offset log group partition }
    ensures pending { (kept : Kept) (log : List Entry) (group : List ℕ) (partition : ℕ)
        → StandsFor kept log
        → nat_lt 0 (kept.slot group partition).pending ≡ is_pending log group partition }
    ensures within { (kept : Kept) (log : List Entry) (group : List ℕ) (partition : ℕ)
        → StandsFor kept log → (kept.slot group partition).pending ≤ end log }
{}
