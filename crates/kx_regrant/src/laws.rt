//! Laws of the definitions.
ghost use Rattle.std.specs.Prelude.{◌≡◌, ◌<◌, ◌≤◌, ◌++◌, ◌∷◌, ◌↔◌, ℕ, List, Option, Some, None};
ghost use Rattle.std.specs.Prelude.{true, false};
ghost use Rattle.std.specs.List.{list_any};
ghost use Rattle.kx_message.specs.declared.code.ErrorCode.{ErrorCode};
ghost use Rattle.kx_message.specs.declared.message.Held.{Held};
ghost use Rattle.kx_message.specs.declared.outcome.Outcome.{Outcome};
ghost use Rattle.kx_grant.specs.Steps.{IsRaised, rank};
ghost use Rattle.kx_grant.specs.declared.grant.Grant.{Grant};
ghost use Rattle.kx_model.specs.Coordinator.{Row, TxnEntry, Written, next_id, row_of};
ghost use Rattle.kx_model.specs.Open.{AlwaysOpen};
ghost use Rattle.kx_model.specs.Requests.{end_txn, init, own_pair};
ghost use Rattle.kx_model.specs.World.{notes};
ghost use Rattle.kx_regrant.specs.Regrant.{IsGrantOf, core_of, grant_row, granted_again, grants};
ghost use Rattle.kx_regrant.specs.Regrant.{is_granted_by};

/// A law: the grant that is read from the log has the pair of the last row that granted the
/// transactional id, whatever rows follow that don't grant it, as all of another cause than a
/// request for an id. If the coordinator answered such a request and wrote a row of it, the
/// grant has the pair of the answer. There is none only if no row granted the id.
pub fn the_last_grant_is_read_again()
    ensures row { (log later : List TxnEntry) (r : Row)
        → grants r ≡ true → list_any (is_granted_by r.txn) later ≡ false
        → IsGrantOf (own_pair r) (granted_again (log ++ Written r ∷ later) r.txn) }
    ensures answered { (log later : List TxnEntry) (client timeout : ℕ) (txn : List ℕ)
        (note : TxnEntry) (held : Held)
        → init log client (Some txn) timeout
        ≡ record { note = Some note; code = ErrorCode.NoError; held = Some held }
        → list_any (is_granted_by txn) later ≡ false
        → IsGrantOf held (granted_again (log ++ note ∷ later) txn) }
    ensures none { (log : List TxnEntry) (txn : List ℕ)
        → (granted_again log txn ≡ None) ↔ (grant_row log txn ≡ None) }
{}

/// A law: the coordinator raises the pair of a transactional id at each grant to a later client and at
/// each end, whatever clients send it and whatever its store does. So the laws of kx_grant that ask
/// for it hold of a server's replies: an answer to a request for an id is above the pair with which
/// the coordinator goes on from the id's last row, or, without a row, of an id that no row and no
/// answer had; an answer to an end is above the pair that it ends. A grant that is read from the log
/// is no newer than the pair with which the coordinator goes on.
pub fn the_coordinator_raises_pairs()
    ensures init { AlwaysOpen (λ w. (client timeout : ℕ) (txn : List ℕ) (r : Row)
        (note : Option TxnEntry) (held : Held)
        → row_of (notes w) txn ≡ Some r → r.owner < client
        → init (notes w) client (Some txn) timeout
        ≡ record { note = note; code = ErrorCode.NoError; held = Some held }
        → IsRaised (core_of r) held) }
    ensures first { AlwaysOpen (λ w. (client timeout : ℕ) (txn : List ℕ)
        (note : Option TxnEntry) (held : Held)
        → row_of (notes w) txn ≡ None
        → init (notes w) client (Some txn) timeout
        ≡ record { note = note; code = ErrorCode.NoError; held = Some held }
        → held.id ≡ next_id (notes w)) }
    ensures end { AlwaysOpen (λ w. (txn : List ℕ) (held next : Held) (outcome : Outcome)
        (note : Option TxnEntry)
        → end_txn (notes w) txn held outcome
        ≡ record { note = note; code = ErrorCode.NoError; held = Some next }
        → IsRaised held next) }
    ensures again { AlwaysOpen (λ w. (txn : List ℕ) (g : Grant)
        → granted_again (notes w) txn ≡ Some g → rank g.granted ≤ rank g.core) }
{}
