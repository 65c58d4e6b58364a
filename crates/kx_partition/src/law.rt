//! That a partition is as before when its store is read again.
ghost use Rattle.std.specs.Prelude.{◌≡◌, ◌++◌, ◌∷◌, [], List, ℕ, Bool};
ghost use Rattle.kx_laws.specs.Grown.{IsGrown};
ghost use Rattle.kx_log.specs.LogState.{IsAppendedTo, LogState};
ghost use Rattle.kx_log.specs.Log.{IsLog, texts};
ghost use Rattle.kx_model.specs.Log.{Marker, MarkerFits, Stored, end, entries};
ghost use Rattle.kx_model.specs.Produce.{Appends, Next, judge_marker, judge_text, stored_at};
ghost use Rattle.kx_model.specs.Produce.{text_of};
ghost use Rattle.kx_partition.specs.Opening.{IsUntaken};

/// A log as the tables grew it has no batch that they don't append, so no rebuild refuses it; and a
/// log with a batch or a marker that they appended is one.
pub fn rebuilt_partitions_are_as_before()
    ensures taken { (log : List Stored) (place : ℕ) → IsGrown log → IsUntaken log place → ⊥ }
    ensures batch { (log : List Stored) (verified : Bool) (text : List ℕ) → IsGrown log
        → judge_text (entries log) verified text ≡ Next
        → IsGrown (log ++ stored_at (end (entries log)) text ∷ []) }
    ensures marker { (log : List Stored) (marker : Marker) → IsGrown log → MarkerFits marker
        → judge_marker (entries log) marker ≡ Appends
        → IsGrown (log ++ stored_at (end (entries log)) (text_of marker) ∷ []) }
{}
