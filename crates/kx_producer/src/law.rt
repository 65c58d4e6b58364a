//! That what is kept follows a log.
ghost use Rattle.std.specs.Prelude.{◌≡◌, ℕ, pos, List, [], ◌∷◌, ◌++◌, None, Some, filter_map};
ghost use Rattle.std.specs.Option.{option_map};
ghost use Rattle.std.specs.FinMap as map;
ghost use Rattle.kx_model.specs.Log.{Entry, Placed, Sequenced, last_sequence, placed};
ghost use Rattle.kx_model.specs.Produce.{marked_by};
ghost use Rattle.kx_model.specs.Producers.{epoch_of};
ghost use Rattle.kx_producer.specs.Follows.{StandsFor, noted_of};
ghost use Rattle.kx_producer.specs.Known.{Table, known_of, marked_in, noted, noted_all};
ghost use Rattle.kx_producer.specs.Verdicts.{verdict, verdict_in};
ghost use Rattle.kx_producer.specs.declared.noted.Noted.{Noted};

/// What is kept stands for a log's entries, each with its offset: nothing for the empty log, and
/// what is noted of one more entry, or of all of a log, for the log with them. Of a log whose
/// entries are after each other from 0 on, it gives the verdict of the produce table's lines on
/// epochs, remembered batches and sequences, the epoch of each producer, and the coordinator of its
/// last marker.
pub fn the_table_follows_the_log()
    ensures empty { StandsFor map.empty [] }
    ensures entry { (table : Table) (entries : List (Placed Entry)) (entry : Placed Entry)
        (note : Noted) → StandsFor table entries → noted_of entry ≡ Some note
        → StandsFor (noted note table) (entries ++ entry ∷ []) }
    ensures plain { (table : Table) (entries : List (Placed Entry)) (entry : Placed Entry)
        → StandsFor table entries → noted_of entry ≡ None
        → StandsFor table (entries ++ entry ∷ []) }
    ensures all { (entries : List (Placed Entry))
        → StandsFor (noted_all (filter_map noted_of entries)) entries }
    ensures verdict { (table : Table) (log : List Entry) (batch : Sequenced)
        → StandsFor table (placed log)
        → verdict (known_of table batch.id) batch.epoch (pos batch.first)
        (pos (last_sequence batch)) ≡ verdict_in log batch }
    ensures epoch { (table : Table) (log : List Entry) (id : ℕ) → StandsFor table (placed log)
        → option_map (λ known. known.epoch) (known_of table id) ≡ epoch_of log id }
    ensures marked_by { (table : Table) (log : List Entry) (id : ℕ)
        → StandsFor table (placed log) → marked_in (known_of table id) ≡ marked_by log id }
{}
