//! That the list follows a log.
ghost use Rattle.std.specs.Prelude.{◌≡◌, ◌≤◌, true, false, pos, List, [], ◌∷◌, ◌++◌};
ghost use Rattle.kx_batch.specs.Record.{Record};
ghost use Rattle.kx_model.specs.Log.{Control, Data, Entry, Marker, Plain, Sequenced, end};
ghost use Rattle.kx_model.specs.Produce.{opens};
ghost use Rattle.kx_open.specs.Open.{begun, ended, open_of};
ghost use Rattle.kx_model.specs.Transactions.{last_stable_offset};
ghost use Rattle.kx_open.specs.declared.open.OpenTxn.{OpenTxn};

/// The open transactions of a log, as this crate lists them, are those that began and didn't end: a
/// batch that opens a transaction begins one at the log's end, a marker ends that of its id, and
/// every other entry leaves the list. The first of the list begins at the log's last stable offset,
/// which is the end if none is open.
pub fn the_list_follows_the_log()
    ensures empty { open_of [] ≡ [] }
    ensures plain { (log : List Entry) (records : List Record)
        → open_of (log ++ Plain records ∷ []) ≡ open_of log }
    ensures begins { (log : List Entry) (batch : Sequenced) → opens log batch ≡ true
        → open_of (log ++ Data batch ∷ []) ≡ begun (record {
          id = batch.id;
          epoch = batch.epoch;
          first = pos (end log);
        }) (open_of log) }
    ensures goes_on { (log : List Entry) (batch : Sequenced) → opens log batch ≡ false
        → open_of (log ++ Data batch ∷ []) ≡ open_of log }
    ensures ends { (log : List Entry) (marker : Marker)
        → open_of (log ++ Control marker ∷ []) ≡ ended marker.id (open_of log) }
    ensures all_stable { (log : List Entry) → open_of log ≡ []
        → last_stable_offset log ≡ end log }
    ensures stable_up_to { (log : List Entry) (txn : OpenTxn) (txns : List OpenTxn)
        → open_of log ≡ txn ∷ txns → pos (last_stable_offset log) ≡ txn.first }
{}
