//! The machine of a processor.
ghost use Rattle.std.specs.Prelude.{◌≡◌, Err, IsErr, MatchResult, OnErr, true, false};
ghost use Rattle.kx_machine.specs.Meaning.{AtProcessor, IsTaken, command_of, input_of};
ghost use Rattle.kx_model.specs.Client.{new_client};
ghost use Rattle.kx_model.specs.Step.{Commands, serves};
ghost use Rattle.kx_model.specs.Replies.{is_awaited};
ghost use Rattle.kx_processor.specs.Calls.{HasPage, IsRefused};
ghost use Rattle.kx_processor.specs.Running.{processor_of};
ghost use Rattle.kx_client_node.specs.Clients.{any_store, foreign_fault};
ghost use Rattle.kx_client_node.specs.Memory.{ProcessorInputMayLack, TurnMayLack};
ghost use Rattle.kx_system.specs.Processor.{new_processing, processor_step, takes};

use kx_client::{ClientFault, ProducerClient};
use kx_log::LogSlices;
use kx_machine::{Command, Input, Machine, Messages, Note, Taken};
use kx_message::{ClientId, GroupId, Message, Timeout, TxnId};
use kx_processor::{Inputs, Process, Processor};
use std::alloc::{AllocError, Global};
use std::marker::Model;

/// A client that consumes, processes and produces, as a machine (KIP-98, KIP-447).
#[derive(Drop)]
pub struct ProcessorMachine<P: Process> {
    alloc: Global,
    processor: Processor<P>,
}

impl<P: Process> Model for ProcessorMachine<P> {
    ghost use Rattle.kx_processor.specs.Running.{Running};

    ghost Value = { Running P };

    ghost view = { λ m. m.processor };
}

impl<P: Process> ProcessorMachine<P> {
    /// A processor of this number in a group, with its input partitions and its process; it has a
    /// transactional id if it is to write anything, and each of its transactions may stay open
    /// for so long. It has sent nothing yet. It takes memory from `alloc` as requests come.
    pub fn new(
        alloc: Global,
        number: ClientId,
        txn: Option<TxnId>,
        timeout: Timeout,
        group: GroupId,
        inputs: Inputs,
        process: P,
    ) -> Self
        ensures { processor_of P.image_of result ≡ record {
          client = new_client number txn timeout;
          processing = new_processing number group inputs (P.image_of process);
        } }
    {
        let client = ProducerClient::new(alloc, number, txn, timeout);
        ProcessorMachine {
            alloc,
            processor: Processor::new(alloc, client, group, inputs, process),
        }
    }

    /// The processor, borrowed.
    pub fn processor(&self) -> &Processor<P>
        ensures { result.now ≡ self.now }
    {
        &self.processor
    }

    /// Its own number, any u32.
    pub fn number(&self) -> ClientId
        ensures { result ≡ self.now.client.number }
    {
        self.processor.number()
    }

    // Why it refuses a command that isn't a processor's, which may be one of transactions.
    fn foreign(&self, of_transactions: bool) -> ClientFault
        ensures { result ≡ foreign_fault (processor_of P.image_of self.now) of_transactions }
    {
        if self.processor.has_failed() {
            ClientFault::Failed
        } else if of_transactions && !self.processor.is_transactional() {
            ClientFault::NotTransactional
        } else {
            ClientFault::NotReady
        }
    }

    // Does what it is told, and sends its requests.
    fn obey(&mut self, told: &Command) -> Result<Messages, ClientFault>
        ensures answer { MatchResult result
            (λ sent. processor_step (processor_of P.image_of self.old)
            (Commands (command_of told.now)) ≡ serves (processor_of P.image_of self.new) sent)
            (λ fault. IsRefused (processor_of P.image_of self.old) (command_of told.now) fault
            (processor_of P.image_of self.new)) }
        ensures memory { result ≡ Err ClientFault.Memory
            → TurnMayLack (processor_of P.image_of self.old) (command_of told.now) }
    {
        match told {
            Command::Init => Ok(Messages::one(self.processor.init()?)),
            Command::Poll => Ok(Messages::from_vec(self.processor.poll()?)),
            Command::Resend => Ok(Messages::from_vec(self.processor.resend()?)),
            Command::Begin | Command::End(_) => Err(self.foreign(true)),
            // There is at least one.
            Command::Offsets(offsets) => Err(self.foreign(!offsets.as_slice().is_empty())),
            Command::Send(_, _) | Command::Join(_) | Command::Leave => Err(self.foreign(false)),
        }
    }

    // What it answers with these messages and this note.
    fn answer(messages: Messages, note: Note) -> Taken
        ensures { result ≡ record {
          messages = messages;
          note = note;
          failed = false;
          found = false;
        } }
    {
        Taken {
            messages,
            note,
            failed: false,
            found: false,
        }
    }

    /// A message comes. Nothing is sent.
    ///
    /// # Errors
    ///
    /// Only if memory runs out; it is asked for only for an awaited page of records; the processor
    /// is then as before.
    pub fn deliver(&mut self, message: &Message) -> Result<(), AllocError>
        ensures answer { MatchResult result
            (λ _. processor_of P.image_of self.new
            ≡ takes (processor_of P.image_of self.old) message.now)
            (λ _. self.new ≡ self.old) }
        ensures memory { OnErr result ((is_awaited self.old.client message.now ≡ true)
            × HasPage message.now) }
    {
        self.processor.take(message)
    }

    /// Takes an input, as [`Machine::take`] has it.
    ///
    /// # Errors
    ///
    /// Only if memory runs out, which is asked for only for what is sent, or for an awaited page;
    /// the processor is then as before.
    pub fn take(&mut self, input: &Input) -> Result<Taken, AllocError>
        ensures answer { MatchResult result
            (IsTaken (AtProcessor (processor_of P.image_of self.old)) (input_of input.now)
            any_store (λ state. state ≡ AtProcessor (processor_of P.image_of self.new)))
            (λ refused. processor_of P.image_of self.new
            ≡ processor_of P.image_of self.old) }
        // Every refusal comes before out of memory.
        ensures memory { IsErr result
            → ProcessorInputMayLack (processor_of P.image_of self.old) (input_of input.now) }
    {
        match input {
            Input::Command(command) => match self.obey(command) {
                Ok(messages) => Ok(ProcessorMachine::<P>::answer(messages, Note::Done)),
                Err(ClientFault::Memory) => Err(AllocError),
                Err(fault) => {
                    let none = Messages::none(self.alloc);
                    Ok(ProcessorMachine::<P>::answer(none, Note::Refused(fault)))
                }
            },
            Input::Deliver(message) => {
                self.deliver(message)?;
                let none = Messages::none(self.alloc);
                Ok(ProcessorMachine::<P>::answer(none, Note::Done))
            }
            Input::Expire(_)
            | Input::Remind
            | Input::Drop(_, _)
            | Input::Put(_)
            | Input::Restart(_) => {
                let none = Messages::none(self.alloc);
                Ok(ProcessorMachine::<P>::answer(none, Note::Done))
            }
        }
    }
}

impl<P: Process> Machine for ProcessorMachine<P> {
    ghost use Rattle.std.specs.Prelude.{◌≡◌};
    ghost use Rattle.kx_machine.specs.Meaning.{AtProcessor};
    ghost use Rattle.kx_processor.specs.Running.{processor_of};
    ghost use Rattle.kx_client_node.specs.Clients.{any_store};

    ghost stands = { λ state machine. state ≡ AtProcessor (processor_of P.image_of machine) };

    ghost allows = { λ machine. any_store };

    ghost failures_of = { λ client. 0 };

    fn take(&mut self, input: &Input) -> Result<Taken, AllocError> {
        ProcessorMachine::take(self, input)
    }

    fn deliver(&mut self, message: &Message) -> Result<Taken, AllocError> {
        ProcessorMachine::deliver(self, message)?;
        let none = Messages::none(self.alloc);
        Ok(ProcessorMachine::<P>::answer(none, Note::Done))
    }

    fn failures(&self) -> u64 {
        0
    }

    fn is_closed(&self) -> bool {
        false
    }

    fn log_end(&self) -> i64 {
        0
    }

    fn batches_from(&self, _from: i64, _max: u32) -> LogSlices<'_> {
        LogSlices::none()
    }
}
