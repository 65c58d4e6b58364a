//! What a processor asks for next.
ghost use Rattle.std.specs.Prelude.{◌≡◌, ◌∷◌, [], Err, MatchResult};
ghost use Rattle.std.specs.List.{cons_option};
ghost use Rattle.kx_client.specs.Calls as client;
ghost use Rattle.kx_message.specs.declared.outcome.Outcome.TheVariants as Outcome;
ghost use Rattle.kx_model.specs.Client as model;
ghost use Rattle.kx_model.specs.Client.{Does, End, Send, SendOffsets};
ghost use Rattle.kx_model.specs.Step.{Commands, serves};
ghost use Rattle.kx_processor.specs.Calls.{AsksNext, IsRefused};
ghost use Rattle.kx_processor.specs.Internal.{IsRefusedOrUnlisted, to_write, told_inside};
ghost use Rattle.kx_processor.specs.Running.{next_of, processor_of};
ghost use Rattle.kx_system.specs.Processor.{processor_step, stage_sent};

use crate::batches::Batches;
use crate::process::Process;
use crate::processor::Processor;
use crate::stage::{Sequel, Stage, from_of};
use kx_client::{ClientFault, ProducerClient, Values};
use kx_message::{Message, PartitionId, PartitionOffset};

// Commits an offset with the transaction, which is begun if there is none.
fn commit(asker: &mut ProducerClient, offset: PartitionOffset) -> Result<Message, ClientFault>
    ensures { MatchResult result
        (λ sent. told_inside asker.old (SendOffsets offset []) ≡ Does asker.new (sent ∷ []))
        (λ fault. client.IsRefused fault (told_inside asker.old (SendOffsets offset []))
        × (asker.new ≡ asker.old)) }
{
    if asker.is_in_transaction() {
        asker.offset(offset)
    } else {
        asker.begin_and_offset(offset)
    }
}

// Sends a batch of images in the transaction, which is begun if there is none.
fn send(
    asker: &mut ProducerClient,
    output: PartitionId,
    values: &Values,
) -> Result<Message, ClientFault>
    ensures { MatchResult result
        (λ sent. told_inside asker.old (Send output values.now.first values.now.more)
        ≡ Does asker.new (sent ∷ []))
        (λ fault. client.IsRefused fault
        (told_inside asker.old (Send output values.now.first values.now.more))
        × (asker.new ≡ asker.old)) }
{
    if asker.is_in_transaction() {
        asker.send(output, values)
    } else {
        asker.begin_and_send(output, values)
    }
}

// Aborts the transaction, which is begun if there is none.
fn abort(asker: &mut ProducerClient) -> Result<Message, ClientFault>
    ensures { MatchResult result
        (λ sent. told_inside asker.old (End Outcome.Abort) ≡ Does asker.new (sent ∷ []))
        (λ fault. client.IsRefused fault (told_inside asker.old (End Outcome.Abort))
        × (asker.new ≡ asker.old)) }
{
    if asker.is_in_transaction() {
        asker.abort()
    } else {
        asker.begin_and_abort()
    }
}

// Writes the first of some batches, or the offset after them if none is left. If an image
// fits no batch, the transaction is aborted.
fn write(
    asker: &mut ProducerClient,
    output: PartitionId,
    offset: PartitionOffset,
    batches: &Batches,
) -> Result<Message, ClientFault>
    ensures { MatchResult result
        (λ sent. told_inside asker.old (to_write offset output batches.now)
        ≡ Does asker.new (sent ∷ []))
        (λ fault. client.IsRefused fault
        (told_inside asker.old (to_write offset output batches.now))
        × (asker.new ≡ asker.old)) }
{
    match batches.first() {
        None => commit(asker, offset),
        Some(values) => {
            if values.fit() {
                send(asker, output, values)
            } else {
                abort(asker)
            }
        }
    }
}

impl<P: Process> Processor<P> {
    // Asks for what comes next, which changes its client alone.
    fn ask(&mut self) -> Result<Option<Message>, ClientFault>
        ensures { MatchResult result
            (λ sent. (next_of P.image_of self.old ≡ Does self.new.client (cons_option sent []))
            × (self.new ≡ record self.old { client = self.new.client }))
            (λ fault. client.IsRefused fault (next_of P.image_of self.old)
            × (self.new ≡ self.old)) }
    {
        match &self.stage {
            Stage::Joining => Ok(Some(self.client.join(self.group)?)),
            Stage::Locating { input, .. } => {
                Ok(Some(self.client.fetch_offset(self.group, input.partition())?))
            }
            Stage::Fetching { input, offset, .. } => {
                let from = from_of(*offset);
                Ok(Some(self.client.fetch_page(input.partition(), from)?))
            }
            Stage::Writing {
                input,
                next,
                batches,
                ..
            } => {
                let output = input.output(self.inputs);
                let offset = PartitionOffset {
                    partition: input.partition(),
                    offset: *next,
                };
                Ok(Some(write(&mut self.client, output, offset, batches)?))
            }
            Stage::Committing(_) => self.client.commit(),
            Stage::Aborting(_) => Ok(Some(self.client.abort()?)),
            Stage::Overflown | Stage::Stopped => Ok(None),
        }
    }

    // The same, and where it then is.
    fn go_on(&mut self) -> Result<Option<Message>, ClientFault>
        ensures { MatchResult result
            (λ sent. (next_of P.image_of self.old ≡ Does self.new.client (cons_option sent []))
            × (self.new ≡ record self.old {
              client = self.new.client;
              stage = stage_sent self.old.stage;
            }))
            (λ fault. client.IsRefused fault (next_of P.image_of self.old)
            × (self.new ≡ self.old)) }
    {
        let overflows = self.stage.overflows();
        let sent = self.ask()?;
        if overflows {
            self.stage = Stage::Aborting(Sequel::Overflows);
        }
        Ok(sent)
    }

    // The same, in a list, for whose room is asked first.
    fn next(&mut self) -> Result<Vec<Message>, ClientFault>
        ensures { MatchResult result
            (λ sent. (next_of P.image_of self.old ≡ Does self.new.client sent.items)
            × (self.new ≡ record self.old {
              client = self.new.client;
              stage = stage_sent self.old.stage;
            }))
            (λ fault. IsRefusedOrUnlisted fault (next_of P.image_of self.old)
            × (self.new ≡ self.old)) }
    {
        let mut sent = Vec::new(self.alloc);
        sent.reserve(1)?;
        if let Some(request) = self.go_on()? {
            sent.push_reserved(request);
        }
        Ok(sent)
    }

    /// Sends the next request, or nothing while one is unanswered. A pass is: to join the group;
    /// then for each input partition that it owns, from the lowest, to fetch the offset that the
    /// group committed, the records from there on, and where there are any, in one transaction, to
    /// write their images in batches of at most 100, each once the one before is answered, then to
    /// commit the offset after them, and then the transaction.
    ///
    /// # Errors
    ///
    /// The first that fits: [`Failed`](ClientFault::Failed) if it has failed or stopped for
    /// good; [`NotReady`](ClientFault::NotReady) if it has no id and asks for none;
    /// [`TooLarge`](ClientFault::TooLarge) once, if an image fitted no batch and the transaction
    /// was aborted, after which it has stopped for good;
    /// [`NotTransactional`](ClientFault::NotTransactional) if a transaction is to be begun
    /// without a transactional id; [`UsedUp`](ClientFault::UsedUp) if no number or sequence is
    /// left for the request. [`Memory`](ClientFault::Memory) may come in place of the last two, and
    /// of no other. Nothing is changed then, but by `TooLarge`.
    pub fn poll(&mut self) -> Result<Vec<Message>, ClientFault>
        ensures polled { MatchResult result
            (λ sent. processor_step (processor_of P.image_of self.old) (Commands model.Poll)
            ≡ serves (processor_of P.image_of self.new) sent.items)
            (λ fault. IsRefused (processor_of P.image_of self.old) model.Poll fault
            (processor_of P.image_of self.new)) }
        // Memory is asked for only for the next request.
        ensures memory { result ≡ Err ClientFault.Memory
            → AsksNext (processor_of P.image_of self.old) }
    {
        if self.has_failed() {
            return Err(ClientFault::Failed);
        }
        if self.client.is_waiting() {
            return Ok(Vec::new(self.alloc));
        }
        if !self.client.has_id() {
            return Err(ClientFault::NotReady);
        }
        if self.stage.is_overflown() {
            self.stage = Stage::Stopped;
            return Err(ClientFault::TooLarge);
        }
        self.next()
    }
}
