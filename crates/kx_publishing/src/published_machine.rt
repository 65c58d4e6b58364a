//! What is under a node's lock if its log is published: the machine, and the writer's end of
//! the published log.
ghost use Rattle.std.specs.Prelude.{◌≡◌, ◌↔◌, ◌<◌, ◌^◌, ℕ, ℤ, Bool, Err, IfErr, IfOk, List};
ghost use Rattle.std.specs.Prelude.{MatchResult, None, Ok, Some, false, option_map, true};
ghost use mathlib.Core.List.{IsPrefix};
ghost use Rattle.kx_machine.specs.Meaning.{IsTaken, NodeState, input_of, is_closed};
ghost use Rattle.kx_model.specs.Log.{Stored};
ghost use Rattle.kx_model.specs.Open.{AlwaysOpen};
ghost use Rattle.kx_model.specs.Page.{Fetched, answer_to};
ghost use Rattle.kx_model.specs.Reading.{committed_of};
ghost use Rattle.kx_model.specs.World.{log_at};
ghost use Rattle.kx_nodes.specs.Taking.{IsAnswer};
ghost use Rattle.kx_pipeline.specs.Visible.{visible_in};
ghost use Rattle.kx_published.specs.Written.{MarkerComesRight};
ghost use Rattle.kx_published.specs.declared.publisher.Done.{Done};
ghost use Rattle.kx_publishing.specs.Publishing.{HasShown, IsOpened, IsRefused, IsRestart, IsSeen};
ghost use Rattle.kx_publishing.specs.Publishing.{MayRestart, Shows, ShowsBeginning, StepShows};
ghost use Rattle.kx_publishing.specs.Publishing.{TendShows, WroteItself, comes_with, partition_of};
ghost use Rattle.kx_publishing.specs.declared.fault.PublishFault.TheVariants as refused;
ghost use Rattle.kx_publishing.specs.declared.published_machine.Publishes.TheVariants as publishes;
ghost use Rattle.kx_publishing.specs.declared.published_machine.Tended.TheVariants as tended_as;

use crate::fault::PublishFault;
use crate::growing::Growing;
use crate::readable::Readable;
use kx_machine::{Input, steps_only_add};
use kx_message::{Message, NodeId, PartitionId};
use kx_nodes::{Locked, NodeFault, Receipt};
use kx_pipeline::pages_show_what_is_visible;
use kx_published::book::{Naming, Opened};
use kx_published::ends::PageReader;
use kx_published::publisher::Publisher;
use kx_published::told::Told;
use std::alloc::{AllocError, Global};
use std::marker::Model;
use std::sync::Wait;

/// When a log is published.
#[derive(Clone, Copy, Debug, PartialEq, Eq)]
pub enum Publishes {
    /// After each step that left another log than readers see.
    EachStep,
    /// Only when it is asked for.
    OnCall,
}

/// What a step answers.
#[derive(Drop)]
pub struct Served {
    /// The receipt of the step.
    pub receipt: Receipt,
    /// Whether this step found readers that enter from now on to see the log that it left. They see
    /// what they saw if no log is published, if none is published at steps, and if the publish
    /// failed: if memory ran out, and after 2^61 publishes.
    pub is_shown: bool,
}

/// What the clock did for a machine.
#[derive(Drop)]
pub enum Tended {
    /// Its log was closed, and it took a restart, which answered this.
    Restarted(Served),
    /// The machine took no step.
    Rested {
        /// As [`Served::is_shown`].
        is_shown: bool,
    },
}

/// A marker that arrives has numbers that a control batch holds, as its types see to. This does
/// nothing when it runs.
pub fn marker_comes_right(input: &Input)
    ensures { MarkerComesRight (comes_with (input_of input.now)) }
{
    if let Input::Deliver(Message::WriteMarker(it)) = input {
        let _ended = it.held.get();
        let _epoch = it.coordinator_epoch;
    }
}

/// What is under a node's lock, and the writer's end of its published log, if it has one. The
/// node wrote its log itself if that is published; and what was passed on to the copies of the
/// log begins it.
#[derive(Drop)]
pub struct PublishedMachine<L: Readable, J: Naming, R: Wait + Drop> {
    locked: L,
    partition: Option<PartitionId>,
    publisher: Option<Publisher<J, R>>,
    publishes: Publishes,
}

impl<L: Readable, J: Naming, R: Wait + Drop> Model for PublishedMachine<L, J, R> {
    ghost use Rattle.kx_publishing.specs.Publishing.{UnderLock};

    ghost Value = { UnderLock L };

    ghost use Rattle.std.specs.Prelude.{◌≡◌};
    ghost use Rattle.kx_publishing.specs.Publishing.{Runs, partition_of};

    ghost view = { λ d. record {
      locked = d.locked;
      published = d.publisher;
      publishes = d.publishes;
    } };

    ghost invariant = { λ d. Runs L.stands d.locked d.publisher
        × (d.partition ≡ partition_of d.publisher) };
}

impl<L: Readable, J: Naming, R: Wait + Drop> PublishedMachine<L, J, R> {
    /// A machine whose log isn't published.
    pub fn new(locked: L) -> Self
        requires { (node : NodeState) × L.stands node locked }
        ensures locked { result.locked ≡ locked }
        ensures published { result.published ≡ None }
    {
        PublishedMachine {
            locked,
            partition: None,
            publisher: None,
            publishes: Publishes::OnCall,
        }
    }

    /// A machine whose log is published under the book that was opened for its partition: the empty
    /// log first, and then the log as it stands, if it isn't empty. Readers see it at once. At most
    /// `readers` readers exist at a time. The copies take memory from `alloc`.
    ///
    /// # Errors
    ///
    /// Only if memory runs out.
    pub fn publishing(
        rt: R,
        alloc: Global,
        locked: L,
        opened: Opened,
        readers: usize,
        publishes: Publishes,
    ) -> Result<Self, AllocError>
        requires wrote { (node : NodeState) × L.stands node locked × WroteItself node }
        requires readers { (0 < readers) × (readers < 2 ^ 32) }
        requires book { opened.seen.book ≡ J.book opened.partition }
        ensures locked { IfOk result (λ d. d.locked ≡ locked) }
        ensures published { IfOk result
            (λ d. IsOpened opened.partition (L.log locked) d.published) }
        ensures publishes { IfOk result (λ d. d.publishes ≡ publishes) }
    {
        let partition = opened.partition;
        let (head, front) = opened.named::<J>();
        let publisher = Publisher::new(rt, alloc, head, front, readers)?;
        let mut machine = PublishedMachine {
            locked,
            partition: Some(partition),
            publisher: Some(publisher),
            publishes,
        };
        if machine.show() {
            return Ok(machine);
        }
        drop(machine);
        Err(AllocError)
    }

    /// The partition whose log is published, if it is.
    pub fn partition(&self) -> Option<PartitionId>
        ensures { result ≡ partition_of self.now.published }
    {
        self.partition
    }

    /// What is under the lock beside the published log.
    pub fn locked(&self) -> &L
        ensures { result.now ≡ self.now.locked }
    {
        &self.locked
    }

    // Publishes the log as it stands, where one is published and readers don't see it yet. Says
    // whether readers that enter from now on see it.
    fn show(&mut self) -> bool
        ensures locked { self.new.locked ≡ self.old.locked }
        ensures publishes { self.new.publishes ≡ self.old.publishes }
        ensures shows { Shows result (L.log self.old.locked) self.old.published
            self.new.published }
        ensures quiet { IsSeen (L.log self.old.locked) self.old.published
            → self.new.published ≡ self.old.published }
        ensures partition { partition_of self.new.published ≡ partition_of self.old.published }
    {
        let Some(publisher) = self.publisher.take() else {
            return false;
        };
        let growing = Growing {
            locked: &self.locked,
        };
        if publisher.shows(&growing) {
            self.publisher = Some(publisher);
            return true;
        }
        let (publisher, told) = publisher.publish(&growing);
        self.publisher = Some(publisher);
        told.is_ok()
    }

    // Publishes the log that a step left, if steps publish.
    fn show_step(&mut self) -> bool
        ensures locked { self.new.locked ≡ self.old.locked }
        ensures publishes { self.new.publishes ≡ self.old.publishes }
        ensures shows { StepShows self.old.publishes result (L.log self.old.locked)
            self.old.published self.new.published }
        ensures quiet { IsSeen (L.log self.old.locked) self.old.published
            → self.new.published ≡ self.old.published }
        ensures waits { self.old.publishes ≡ publishes.OnCall
            → self.new.published ≡ self.old.published }
        ensures partition { partition_of self.new.published ≡ partition_of self.old.published }
    {
        match self.publishes {
            Publishes::EachStep => self.show(),
            Publishes::OnCall => false,
        }
    }

    /// One step, and then a publish of the log that it left, if steps publish and readers don't
    /// see that log already: a step that appended nothing publishes nothing. The publish waits for
    /// readers that are still in the log before the one that they see now.
    ///
    /// # Errors
    ///
    /// As [`Locked::take`]; then there was no step, and nothing was published.
    pub fn step(&mut self, input: Input) -> Result<Served, NodeFault>
        ensures step { (node : NodeState) → L.stands node self.old.locked → MatchResult result
            (λ served. IsTaken node (input_of input) (L.allows self.old.locked)
            (λ s. L.stands s self.new.locked) served.receipt.taken)
            (λ refused. L.stands node self.new.locked) }
        ensures input { IfOk result (λ served. served.receipt.input ≡ input) }
        ensures answer { IfOk result
            (λ served. IsAnswer (input_of input) served.receipt.taken) }
        ensures recorded { MatchResult result
            (λ served. L.records self.old.locked input (Ok served.receipt) self.new.locked)
            (λ refused. L.records self.old.locked input (Err refused) self.new.locked) }
        ensures shows { MatchResult result
            (λ served. StepShows self.old.publishes served.is_shown (L.log self.new.locked)
            self.old.published self.new.published)
            (λ refused. self.new.published ≡ self.old.published) }
        ensures quiet { IsSeen (L.log self.new.locked) self.old.published
            → self.new.published ≡ self.old.published }
        ensures waits { self.old.publishes ≡ publishes.OnCall
            → self.new.published ≡ self.old.published }
        ensures partition { partition_of self.new.published ≡ partition_of self.old.published }
        ensures publishes { self.new.publishes ≡ self.old.publishes }
    {
        // These two do nothing when they run. By their clauses the log still begins with what was
        // passed on, and was written batch by batch.
        marker_comes_right(&input);
        steps_only_add();
        let receipt = self.locked.take(input)?;
        let is_shown = self.show_step();
        Ok(Served { receipt, is_shown })
    }

    /// What the clock does for the machine at this time, in milliseconds since 1970. A closed log
    /// is opened again by a step, as [`step`](PublishedMachine::step) makes one. If the log
    /// isn't closed there is no step, and the log is published if readers don't see it yet, as
    /// after a publish that failed.
    ///
    /// # Errors
    ///
    /// Only if a closed log is to be opened, as [`step`](PublishedMachine::step); then there was
    /// no step, and nothing was published.
    pub fn tend(&mut self, now: u64) -> Result<Tended, NodeFault>
        ensures closed { (node : NodeState) → L.stands node self.old.locked
            → is_closed node ≡ true → MatchResult result
            (λ tended. IsRestart (L.allows self.old.locked) node now
            (λ s. L.stands s self.new.locked) tended)
            (λ refused. L.stands node self.new.locked) }
        ensures open { (node : NodeState) → L.stands node self.old.locked
            → is_closed node ≡ false → (self.new.locked ≡ self.old.locked)
            × IfOk result (λ tended. (shown : Bool) × (tended ≡ tended_as.Rested shown)) }
        ensures answer { IfOk result (MayRestart now) }
        ensures shows { MatchResult result
            (λ tended. TendShows self.old.publishes tended (L.log self.new.locked)
            self.old.published self.new.published)
            (λ refused. self.new.published ≡ self.old.published) }
        ensures quiet { IsSeen (L.log self.new.locked) self.old.published
            → self.new.published ≡ self.old.published }
        ensures partition { partition_of self.new.published ≡ partition_of self.old.published }
    {
        if self.locked.is_closed() {
            let served = self.step(Input::Restart(now))?;
            return Ok(Tended::Restarted(served));
        }
        Ok(Tended::Rested {
            is_shown: self.show(),
        })
    }

    /// Publishes the log as it stands: readers that enter from now on see it. It waits for readers
    /// that are still in the log before the one that they see now.
    ///
    /// # Errors
    ///
    /// `NoReader` if no log is published; else `Memory`, if memory runs out and after 2^61
    /// publishes. Readers see what they saw, and the one publish that was tried is counted.
    pub fn publish(&mut self) -> Result<Told<J>, PublishFault>
        ensures locked { self.new.locked ≡ self.old.locked }
        ensures shows { IfOk result (HasShown (L.log self.old.locked) self.old.published
            self.new.published) }
        ensures partition { partition_of self.new.published ≡ partition_of self.old.published }
        ensures told { IfOk result
            (λ told. partition_of self.old.published ≡ Some told.partition) }
        ensures stays { IfErr result (λ _. option_map (λ d. d.shown) self.new.published
            ≡ option_map (λ d. d.shown) self.old.published) }
        ensures refused { IfErr result (λ fault. IsRefused fault (L.log self.old.locked)
            self.old.published self.new.published) }
        ensures silent { (result ≡ Err refused.NoReader) ↔ (self.old.published ≡ None) }
    {
        let Some(publisher) = self.publisher.take() else {
            return Err(PublishFault::NoReader);
        };
        let growing = Growing {
            locked: &self.locked,
        };
        let (publisher, published) = publisher.publish(&growing);
        self.publisher = Some(publisher);
        Ok(published?)
    }

    /// What readers take is a beginning of the node's own log. This does nothing when it runs.
    pub fn readers_see_a_prefix(&self)
        ensures { ShowsBeginning (L.log self.now.locked) self.now.published }
    {
        // If a field is read, the invariant is known.
        let _partition = self.partition;
    }

    /// A page of committed records that a reader takes gives it exactly the records of its range
    /// that are visible in a world whose partition has the node's log: whatever clients ask
    /// (KIP-98, "READ_COMMITTED"). It is so of the log that readers take now, and of each beginning
    /// of it, as readers took before. This does nothing when it runs.
    pub fn readers_see_what_is_visible(&self)
        ensures { AlwaysOpen (λ w. (partition : ℕ) → log_at w partition ≡ L.log self.now.locked
            → (done : Done) → self.now.published ≡ Some done
            → (log : List Stored) → IsPrefix log done.shown → (from : ℤ) (room : ℕ)
            (got : Fetched) → answer_to log from room true ≡ Ok got
            → committed_of got ≡ visible_in w partition from got.next) }
    {
        self.readers_see_a_prefix();
        pages_show_what_is_visible();
    }

    /// A reader that knows of the publishes so far. It may stay when the machine has gone, and
    /// finds the log [`Gone`](kx_published::ends::Gone) then.
    ///
    /// # Errors
    ///
    /// `NoReader` if no log is published, and if all readers' places are taken.
    pub fn reader(&self) -> Result<PageReader<J>, PublishFault>
        ensures known { IfOk result (λ r. (option_map (λ d. d.known) self.now.published ≡ Some r.known)
            × (r.is_in ≡ false)) }
        // Places that are all taken aren't out of memory.
        ensures full { IfErr result (λ fault. fault ≡ refused.NoReader) }
    {
        let Some(publisher) = &self.publisher else {
            return Err(PublishFault::NoReader);
        };
        publisher.reader().ok_or(PublishFault::NoReader)
    }

    /// Publishes no more: waits until readers that are in the log have left, and those that enter
    /// then find it gone. Returns what stood under the lock beside it.
    pub fn into_locked(self) -> L
        ensures { result ≡ self.locked }
    {
        let PublishedMachine {
            locked,
            publisher,
            ..
        } = self;
        drop(publisher);
        locked
    }
}

impl<L: Readable, J: Naming, R: Wait + Drop> Locked for PublishedMachine<L, J, R> {
    ghost use Rattle.kx_publishing.specs.Publishing.{StepIsPublished};

    ghost stands = { λ node d. L.stands node d.locked };

    ghost allows = { λ d. L.allows d.locked };

    ghost named = { λ d. L.named d.locked };

    ghost keeps_trace = { L.keeps_trace };

    ghost records = { StepIsPublished L.log L.records };

    fn name(&self) -> NodeId {
        self.locked.name()
    }

    fn is_traced(&self) -> bool {
        self.locked.is_traced()
    }

    fn take(&mut self, input: Input) -> Result<Receipt, NodeFault> {
        let stepped = self.step(input);
        self.readers_see_a_prefix();
        match stepped {
            Ok(served) => Ok(served.receipt),
            Err(fault) => Err(fault),
        }
    }
}
