//! The processor: what it is told, and what it makes of replies.
ghost use Rattle.std.specs.Prelude.{◌≡◌, ◌∷◌, [], true, Err, IfOk, OnErr, MatchResult, is_some};
ghost use Rattle.kx_model.specs.Client as model;
ghost use Rattle.kx_model.specs.Step.{Commands, serves};
ghost use Rattle.kx_model.specs.Replies.{is_awaited};
ghost use Rattle.kx_processor.specs.Calls.{HasPage, IsRefused, MaySend};
ghost use Rattle.kx_processor.specs.Internal.{IsPaged};
ghost use Rattle.kx_processor.specs.Running.{processing_of, processor_of};
ghost use Rattle.kx_system.specs.Processor as pass;
ghost use Rattle.kx_system.specs.Processor.{new_processing, processor_step, takes};

use crate::inputs::Inputs;
use crate::page::behind;
use crate::process::Process;
use crate::stage::{Stage, from_of};
use kx_client::{ClientFault, ProducerClient};
use kx_message::{ClientId, GroupId, Message};
use kx_partition::{FetchPage, ReplyFault};
use std::alloc::{AllocError, Global};
use std::marker::Model;
use std::mem;

/// A client that consumes, processes and produces (KIP-98, KIP-447): a member of a group, with its
/// input partitions and its process.
#[derive(Drop)]
pub struct Processor<P: Process> {
    pub(crate) alloc: Global,
    pub(crate) client: ProducerClient,
    pub(crate) group: GroupId,
    pub(crate) inputs: Inputs,
    pub(crate) process: P,
    pub(crate) stage: Stage,
}

impl<P: Process> Model for Processor<P> {
    ghost use Rattle.kx_processor.specs.Internal.{stage_of};
    ghost use Rattle.kx_processor.specs.Running.{Running};

    ghost Value = { Running P };

    ghost view = { λ p. record {
      client = p.client;
      group = p.group;
      inputs = p.inputs;
      process = p.process;
      stage = stage_of p.stage;
    } };
}

impl<P: Process> Processor<P> {
    /// A processor that is about to begin its first pass: of a client, which should be as
    /// [`ProducerClient::new`] made it, in a group, with its input partitions and its process. It
    /// takes memory from `alloc` as pages come.
    pub fn new(
        alloc: Global,
        client: ProducerClient,
        group: GroupId,
        inputs: Inputs,
        process: P,
    ) -> Self
        ensures { processor_of P.image_of result ≡ record {
          client = client;
          processing = new_processing client.number group inputs (P.image_of process);
        } }
    {
        Processor {
            alloc,
            client,
            group,
            inputs,
            process,
            stage: Stage::Joining,
        }
    }

    /// Its client, borrowed: what it holds, and whether it is in a transaction or waits for
    /// replies.
    pub fn client(&self) -> &ProducerClient
        ensures { result.now ≡ self.now.client }
    {
        &self.client
    }

    /// Its client's number, any u32.
    pub fn number(&self) -> ClientId
        ensures { result ≡ self.now.client.number }
    {
        self.client.number()
    }

    /// Whether it has a transactional id, without which it writes nothing.
    pub fn is_transactional(&self) -> bool
        ensures { result ≡ is_some self.now.client.txn }
    {
        self.client.is_transactional()
    }

    /// Whether its client has failed, or it has stopped for good: it then refuses every command.
    pub fn has_failed(&self) -> bool
        ensures { result ≡ pass.has_failed (processor_of P.image_of self.now) }
    {
        self.client.has_failed() || self.stage.is_stopped()
    }

    /// Asks the coordinator for an id and an epoch, as [`ProducerClient::init`].
    ///
    /// # Errors
    ///
    /// Those of [`ProducerClient::init`]; [`Failed`](ClientFault::Failed) also if the processor
    /// has stopped for good. Nothing is changed then.
    pub fn init(&mut self) -> Result<Message, ClientFault>
        ensures answer { MatchResult result
            (λ sent. processor_step (processor_of P.image_of self.old) (Commands model.Init)
            ≡ serves (processor_of P.image_of self.new) (sent ∷ []))
            (λ fault. IsRefused (processor_of P.image_of self.old) model.Init fault
            (processor_of P.image_of self.new) × (self.new ≡ self.old)) }
        // Memory is asked for only for the request.
        ensures memory { result ≡ Err ClientFault.Memory
            → MaySend (processor_of P.image_of self.old) model.Init }
    {
        if self.has_failed() {
            return Err(ClientFault::Failed);
        }
        self.client.init()
    }

    /// Sends every unanswered request again, as [`ProducerClient::resend`].
    ///
    /// # Errors
    ///
    /// [`Failed`](ClientFault::Failed) if the processor has failed or stopped for good, and then
    /// [`Memory`](ClientFault::Memory).
    pub fn resend(&self) -> Result<Vec<Message>, ClientFault>
        ensures answer { MatchResult result
            (λ sent. processor_step (processor_of P.image_of self.now) (Commands model.Resend)
            ≡ serves (processor_of P.image_of self.now) sent.items)
            (λ fault. IsRefused (processor_of P.image_of self.now) model.Resend fault
            (processor_of P.image_of self.now)) }
        // Memory is asked for only if something is unanswered.
        ensures memory { result ≡ Err ClientFault.Memory
            → MaySend (processor_of P.image_of self.now) model.Resend }
    {
        if self.has_failed() {
            return Err(ClientFault::Failed);
        }
        self.client.resend()
    }

    // Where the page that a reply has leads, if it has one and a page is awaited.
    fn paged(&self, reply: &Message) -> Result<Option<Stage>, AllocError>
        ensures ok { IfOk result (λ paged.
            IsPaged (processing_of P.image_of self.now) reply.now paged) }
        ensures err { OnErr result (HasPage reply.now) }
    {
        let Stage::Fetching {
            input,
            left,
            offset,
        } = &self.stage
        else {
            return Ok(None);
        };
        match FetchPage::from_reply(self.alloc, from_of(*offset), reply) {
            Ok(page) => Ok(Some(behind(&self.process, self.alloc, *input, *left, page)?)),
            Err(ReplyFault::Memory) => Err(AllocError),
            Err(ReplyFault::NoPage | ReplyFault::Bytes(_)) => Ok(None),
        }
    }

    /// Takes a message that has come. It changes something only if it is a reply to this
    /// processor's client and a request of its kind and number waits; then the client takes it, as
    /// [`ProducerClient::take`] says, and the pass goes on.
    ///
    /// A page of records has its images made here.
    /// [`IllegalGeneration`](kx_message::ErrorCode::IllegalGeneration) on an offset aborts the
    /// transaction, and a new pass begins;
    /// [`UnknownMemberId`](kx_message::ErrorCode::UnknownMemberId) aborts it, and the processor
    /// stops for good. A page whose batches aren't right is asked for again.
    ///
    /// # Errors
    ///
    /// Only if memory is refused, which is asked for only for an awaited reply that carries a
    /// page. Nothing is changed then, so that the reply may come again.
    pub fn take(&mut self, reply: &Message) -> Result<(), AllocError>
        ensures taken { MatchResult result
            (λ _. processor_of P.image_of self.new
            ≡ takes (processor_of P.image_of self.old) reply.now)
            (λ _. self.new ≡ self.old) }
        ensures memory { OnErr result ((is_awaited self.old.client reply.now ≡ true)
            × HasPage reply.now) }
    {
        if !self.client.awaits(reply) {
            return Ok(());
        }
        let paged = self.paged(reply)?;
        let stage = mem::replace(&mut self.stage, Stage::Stopped);
        self.stage = stage.led(paged, self.inputs, reply);
        self.client.take(reply);
        Ok(())
    }
}
