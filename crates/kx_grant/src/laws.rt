//! Laws of the definitions.
ghost use Rattle.std.specs.Prelude.{◌≡◌, ◌≢◌, ◌≤◌, ◌⊎◌, ◌↔◌, ℕ, ℤ, pos, List, Option, Some, None};
ghost use Rattle.std.specs.Prelude.{true, false, ◌<◌, ◌+◌, option_map};
ghost use Rattle.kx_message.specs.declared.message.Held.{Held};
ghost use Rattle.kx_message.specs.declared.outcome.Outcome.{Outcome};
ghost use Rattle.kx_message.specs.declared.code.ErrorCode.{ErrorCode};
ghost use Rattle.kx_message.specs.declared.requests.EndTxn.{EndTxn};
ghost use Rattle.kx_grant.specs.Codes.{end_code, init_code, produce_code};
ghost use Rattle.kx_grant.specs.Heard.{Hear, after_hear, after_hears, is_heard, newest};
ghost use Rattle.kx_grant.specs.Fencing.{ChangesNothing, IsRefused};
ghost use Rattle.kx_grant.specs.Sequences.{IsSequence, after, sequences, since};
ghost use Rattle.kx_grant.specs.Grant.{after_batch, after_commit, after_refused, after_taken};
ghost use Rattle.kx_grant.specs.Grant.{batch_verdict, begun, commit_code, counts, end_verdict};
ghost use Rattle.kx_grant.specs.Grant.{ended, is_before, is_held, listed_at, next_at, reopened};
ghost use Rattle.kx_grant.specs.Producer.{after_offsets, answered_place, end_of, granting_of};
ghost use Rattle.kx_grant.specs.Producer.{init_of, offsets_of, place_in};
ghost use Rattle.kx_grant.specs.Steps.{AllRaise, EndsAtOnce, EndsSo, Fits, IsGrant, IsRaised, Step};
ghost use Rattle.kx_grant.specs.Steps.{after_all};
ghost use Rattle.kx_grant.specs.Steps.{after_step, all_keep_grant, all_records_in, all_stay, rank};
ghost use Rattle.kx_grant.specs.declared.grant.Grant.{Grant};
ghost use Rattle.kx_grant.specs.declared.grant.LastRow.{LastRow};
ghost use Rattle.kx_grant.specs.declared.grant.Listed.{Listed};
ghost use Rattle.kx_grant.specs.declared.grant.Phase.{Phase};
ghost use Rattle.kx_grant.specs.declared.heard.Heard.{Heard};
ghost use Rattle.kx_grant.specs.declared.heard.Role.{Role};
ghost use Rattle.kx_grant.specs.declared.producer.OffsetsPlace.{OffsetsPlace};
ghost use Rattle.kx_grant.specs.declared.producer.Producer.{Producer};
ghost use Rattle.kx_grant.specs.declared.verdicts.BatchVerdict.{BatchVerdict};
ghost use Rattle.kx_grant.specs.declared.verdicts.EndStep.{EndStep};
ghost use Rattle.kx_grant.specs.declared.verdicts.EndVerdict.{EndVerdict};
ghost use Rattle.kx_grant.specs.declared.verdicts.Granting.{Granting};
ghost use Rattle.kx_grant.specs.declared.verdicts.InitVerdict.{InitVerdict};

/// A law: in one transaction a client's batch is sent to the core with one id, epoch and base
/// sequence, however often it arrives, and batches of a partition that begin at different sequences
/// are sent with different base sequences. In different transactions batches are sent with
/// different ids or epochs, if the core raises the epoch at each end. A late batch of an earlier
/// transaction isn't sent to the core: one that begins before the sequence at which the transaction
/// began in the partition, as long as both together have fewer than 2^31 records.
pub fn a_batch_is_sent_as_one()
    ensures one { (g : Grant) (steps : List Step) (held other one two : Held)
        (p first later count more : ℕ) (at place : ℤ)
        → IsGrant g → IsSequence first → IsSequence later
        → batch_verdict g held p (pos first) count ≡ BatchVerdict.Send one at
        → all_stay steps ≡ true
        → batch_verdict (after_all (after_batch g held p (pos first) count) steps) other p
        (pos later) more ≡ BatchVerdict.Send two place
        → (two ≡ one) × (first ≡ later ↔ at ≡ place) }
    ensures apart { (g : Grant) (steps : List Step) (held other one two : Held) (p q : ℕ)
        (first later : ℤ) (count more : ℕ) (at place : ℤ)
        → batch_verdict g held p first count ≡ BatchVerdict.Send one at
        → all_stay steps ≡ false → AllRaise (after_batch g held p first count) steps
        → batch_verdict (after_all (after_batch g held p first count) steps) other q later more
        ≡ BatchVerdict.Send two place
        → IsRaised one two }
    ensures late { (g : Grant) (held : Held) (p first count : ℕ) (listed : Listed)
        (base sent : ℕ) (one : Held) (at : ℤ)
        → IsSequence base → IsSequence first
        → listed_at g p ≡ Some listed → listed.base ≡ Some base → next_at g p ≡ Some sent
        → 0 < since first base → since first base + since base sent < sequences
        → batch_verdict g held p (pos first) count ≡ BatchVerdict.Send one at → ⊥ }
{}

/// A law: a batch that was taken, or refused for good, before its transaction ended is sent to the
/// core in no later transaction, for as long as the producer keeps its id and epoch and counts
/// fewer than 2^31 records in the partition from the batch on.
pub fn a_batch_is_sent_in_one_transaction()
    ensures { (g : Grant) (steps : List Step) (held next : Held) (decided : Outcome)
        (p first counted count : ℕ) (one : Held) (at : ℤ)
        → IsSequence first → IsSequence counted
        → next_at g p ≡ Some counted → 0 < since first counted
        → all_keep_grant steps ≡ true
        → since first counted + all_records_in (ended decided next g) p steps < sequences
        → batch_verdict (after_all (ended decided next g) steps) held p (pos first) count
        ≡ BatchVerdict.Send one at → ⊥ }
{}

/// A law: a client's next sequence goes on over a batch that was taken, or refused for good, by as
/// many sequences as it has records; so the batch is from before it, and
/// [`a_batch_is_sent_in_one_transaction`] speaks of it.
pub fn a_counted_batch_moves_on()
    ensures taken { (g : Grant) (held : Held) (p first count : ℕ)
        → counts g held p (pos first) ≡ true
        → next_at (after_taken g held p (pos first) count) p ≡ Some (after first count) }
    ensures refused { (g : Grant) (held : Held) (p first count : ℕ)
        → counts g held p (pos first) ≡ true
        → next_at (after_refused g held p (pos first) count) p ≡ Some (after first count) }
    ensures behind { (first count : ℕ) → IsSequence first → 0 < count → count < sequences
        → since first (after first count) ≡ count }
{}

/// A law: once a batch or offsets were sent to the core, the core is asked to end their transaction.
/// An end is answered with code 0 without asking only if nothing of its transaction was sent to the
/// core, if the core ended it before with this outcome, or if it is an abort since a restart before
/// which all was decided: a grant remembers an outcome only after a step that ends a transaction so,
/// or after a restart, from the coordinator's log. Clauses `at_once` and `as_asked` say so of a
/// client's request: the core is asked for the outcome that the client asked for.
pub fn an_end_is_decided_by_the_core()
    ensures asked { (g : Grant) (steps : List Step) (held one : Held) (p : ℕ) (first : ℤ)
        (count : ℕ) (at : ℤ) (outcome : Outcome)
        → batch_verdict g held p first count ≡ BatchVerdict.Send one at
        → all_stay steps ≡ true
        → end_verdict (after_all (after_batch g held p first count) steps) held outcome
        ≡ EndVerdict.Ask one outcome }
    ensures offsets { (g : Grant) (steps : List Step) (held : Held) (outcome : Outcome)
        → commit_code g held ≡ None → all_stay steps ≡ true
        → end_verdict (after_all (after_commit g held) steps) held outcome
        ≡ EndVerdict.Ask g.core outcome }
    ensures answered { (g : Grant) (held : Held) (outcome : Outcome)
        → end_verdict g held outcome ≡ EndVerdict.Answer ErrorCode.NoError
        → EndsAtOnce g.phase outcome }
    ensures remembered { (g : Grant) (step : Step) (outcome : Outcome)
        → (after_step g step).phase ≡ Phase.Ended outcome
        → (g.phase ≡ Phase.Ended outcome) ⊎ EndsSo g step outcome }
    ensures read { (g : Grant) (step : Step) (outcome : Outcome)
        → (after_step g step).phase ≡ Phase.Decided outcome → g.phase ≡ Phase.Decided outcome }
    ensures at_once { (version : ℤ) (request : EndTxn) (grant : Option Grant)
        → end_of version request grant ≡ EndStep.Answer ErrorCode.NoError
        → (g : Grant) × (grant ≡ Some g) × EndsAtOnce g.phase request.outcome }
    ensures as_asked { (version : ℤ) (request core : EndTxn) (grant : Option Grant)
        → end_of version request grant ≡ EndStep.Ask core → core.outcome ≡ request.outcome }
{}

/// A law: a client that holds an earlier pair than the granted one is fenced (KIP-98): nothing of it
/// is sent to the core or answered with code 0, and nothing that is known changes. It may ask for an
/// id only if the present grant was asked with its pair, whose answer may be lost (KIP-360). The
/// granted pair never falls, and each new grant raises it, if the core raises the epoch at each end
/// and at each new grant.
pub fn a_fenced_producer_sends_nothing()
    ensures refused { (p : Producer) (g : Grant) (held : Held) → p.grant ≡ Some g
        → rank held < rank g.granted → IsRefused p held }
    ensures kept { (p : Producer) (g : Grant) (held : Held) → p.grant ≡ Some g
        → rank held < rank g.granted → ChangesNothing p held }
    ensures asks { (g : Grant) (held : Held) → rank held < rank g.granted
        → is_before g.before held ≡ false → init_of (Some g) (Some held) ≡ InitVerdict.Fenced }
    ensures stays { (g : Grant) (steps : List Step) → rank g.granted ≤ rank g.core
        → AllRaise g steps → rank g.granted ≤ rank (after_all g steps).granted }
    ensures raised { (g : Grant) (steps : List Step) → rank g.granted ≤ rank g.core
        → AllRaise g steps → all_keep_grant steps ≡ false
        → rank g.granted < rank (after_all g steps).granted }
{}

/// A law: offsets of a transaction are sent to the core one request after the other. Those after an
/// answer with code 0 are sent at the next sequence, those after another answer at the same one; the
/// first of a transaction at 0.
pub fn offsets_are_sent_in_turn()
    ensures first { (place : Option OffsetsPlace) (core : Held)
        → ((at : OffsetsPlace) → place ≡ Some at → is_held at.core core ≡ false)
        → place_in place core ≡ Some 0 }
    ensures waits { (p : Producer) (core held : Held) (next count : ℕ)
        → place_in (after_offsets (BatchVerdict.Send core (pos next)) held count p).place core
        ≡ None }
    ensures taken { (p : Producer) (g : Grant) (place : Option OffsetsPlace)
        (core held : Held) (next count : ℕ)
        → offsets_of (Some g) place held count ≡ BatchVerdict.Send core (pos next)
        → place_in (option_map (answered_place ErrorCode.NoError)
        (after_offsets (BatchVerdict.Send core (pos next)) held count p).place) core
        ≡ Some (next + count) }
    ensures again { (p : Producer) (core held : Held) (next count : ℕ) (code : ErrorCode)
        → code ≢ ErrorCode.NoError
        → place_in (option_map (answered_place code)
        (after_offsets (BatchVerdict.Send core (pos next)) held count p).place) core
        ≡ Some next }
{}

/// A law: a producer that asks for an id anew is granted another pair than it held, if the core
/// raises the epoch at each end and at each new grant; and none is granted the pair that it named.
pub fn a_bump_answers_another_pair()
    ensures behind { (g : Grant) (steps : List Step) → rank g.granted ≤ rank g.core
        → AllRaise g steps
        → rank (after_all g steps).granted ≤ rank (after_all g steps).core }
    ensures another { (g : Grant) (asked held : Held) → rank g.granted ≤ rank g.core
        → IsRaised g.core held → (begun (Some asked) held).granted ≢ g.granted }
    ensures never_named { (version : ℤ) (named held : Held) (code : ErrorCode) (given : Option Held)
        → granting_of version (Some named) code given ≡ Granting.Granted held → held ≢ named }
{}

/// A law: what a grant knows of a client's sequences are sequences, 0 to 2^31 - 1, from the begin
/// on and after each step, as the int32 of a batch is one if it isn't below 0.
pub fn grants_know_sequences()
    ensures begun { (before : Option Held) (held : Held) → IsGrant (begun before held) }
    ensures reopened { (granted core : Held) (row : LastRow)
        → IsGrant (reopened granted core row) }
    ensures kept { (g : Grant) (step : Step) → IsGrant g → Fits step
        → IsGrant (after_step g step) }
{}

/// A law: once a connection was heard in a role, no older one is heard in it again, whatever else
/// is heard; the newest one is.
pub fn older_connections_are_not_heard()
    ensures newest { (h : Heard) (role : Role) (connection : ℕ)
        → ((last : ℕ) → newest h role ≡ Some last → last ≤ connection)
        → is_heard h role connection ≡ true }
    ensures older { (h : Heard) (role : Role) (connection older : ℕ) (hears : List Hear)
        → is_heard h role connection ≡ true → older < connection
        → is_heard (after_hears (after_hear h role connection) hears) role older ≡ false }
{}

/// A law: a response has code 0 exactly if the core's code is 0.
pub fn zero_is_the_cores()
    ensures init { (version : ℤ) (code : ErrorCode)
        → (init_code version code ≡ ErrorCode.NoError) ↔ (code ≡ ErrorCode.NoError) }
    ensures end { (version : ℤ) (code : ErrorCode)
        → (end_code version code ≡ ErrorCode.NoError) ↔ (code ≡ ErrorCode.NoError) }
    ensures produce { (code : ErrorCode)
        → (produce_code code ≡ ErrorCode.NoError) ↔ (code ≡ ErrorCode.NoError) }
{}
