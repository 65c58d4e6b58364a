//! A client as a machine.
ghost use Rattle.std.specs.Prelude.{◌≡◌, ◌<◌, IsErr, MatchResult, false, length};
ghost use Rattle.kx_client_node.specs.Clients.{IsDeclined, any_store};
ghost use Rattle.kx_client_node.specs.Memory.{InputMayLack};
ghost use Rattle.kx_machine.specs.Meaning.{AtClient, IsTaken, command_of, input_of};
ghost use Rattle.kx_model.specs.Client.{Does, command, new_client};
ghost use Rattle.kx_model.specs.Replies.{take_reply};

use kx_client::{ClientFault, ProducerClient};
use kx_log::LogSlices;
use kx_machine::{Command, Input, Machine, Messages, Note, Taken};
use kx_message::{ClientId, Message, Offsets, Outcome, Timeout, TxnId};
use std::alloc::{AllocError, Global};
use std::marker::Model;

/// A client that produces, as a machine: it takes commands, and the replies that come to it.
#[derive(Drop)]
pub struct ClientMachine {
    alloc: Global,
    client: ProducerClient,
}

impl Model for ClientMachine {
    ghost use Rattle.kx_model.specs.Client.{Client};

    ghost Value = { Client };

    ghost view = { λ m. m.client };
}

// A law: a commit of offsets has at least one.
fn there_is_one(offsets: &Offsets)
    ensures { 0 < length offsets.now }
{
    offsets.as_slice();
}

impl ClientMachine {
    /// A client of this number, with a transactional id if it is to have transactions, each of
    /// which may stay open for so long. It has sent nothing yet. It takes memory from `alloc` as
    /// requests come.
    pub fn new(alloc: Global, number: ClientId, txn: Option<TxnId>, timeout: Timeout) -> Self
        ensures { result ≡ new_client number txn timeout }
    {
        ClientMachine {
            alloc,
            client: ProducerClient::new(alloc, number, txn, timeout),
        }
    }

    /// The client, borrowed: what it holds, and whether it is in a transaction or waits for
    /// replies.
    pub fn client(&self) -> &ProducerClient
        ensures { result.now ≡ self.now }
    {
        &self.client
    }

    /// Its own number, any u32.
    pub fn number(&self) -> ClientId
        ensures { result ≡ self.now.number }
    {
        self.client.number()
    }

    // Does what it is told, and sends its requests.
    #[tactic(auto, using(crate::proofs::Declining::declined, crate::proofs::Declining::offsets_declined))]
    fn ask(&mut self, told: &Command) -> Result<Messages, ClientFault>
        ensures { MatchResult result
            (λ sent. command self.old (command_of told.now) ≡ Does self.new sent)
            (λ fault. IsDeclined fault (command self.old (command_of told.now))
            × (self.new ≡ self.old)) }
    {
        match told {
            Command::Init => Ok(Messages::one(self.client.init()?)),
            Command::Begin => {
                self.client.begin()?;
                Ok(Messages::none(self.alloc))
            }
            Command::Send(partition, values) => {
                Ok(Messages::one(self.client.send(*partition, values)?))
            }
            Command::Join(group) => Ok(Messages::one(self.client.join(*group)?)),
            Command::Leave => Ok(Messages::one(self.client.leave()?)),
            Command::Offsets(offsets) => {
                there_is_one(offsets);
                Ok(Messages::one(self.client.copied_offsets(offsets)?))
            }
            Command::End(Outcome::Commit) => match self.client.commit()? {
                Some(request) => Ok(Messages::one(request)),
                None => Ok(Messages::none(self.alloc)),
            },
            Command::End(Outcome::Abort) => Ok(Messages::one(self.client.abort()?)),
            Command::Resend => Ok(Messages::from_vec(self.client.resend()?)),
            // Only a processor has a next request.
            Command::Poll if self.client.has_failed() => Err(ClientFault::Failed),
            Command::Poll => Err(ClientFault::NotReady),
        }
    }

    // What it answers with these messages and this note.
    fn answer(messages: Messages, note: Note) -> Taken
        ensures { result ≡ record {
          messages = messages;
          note = note;
          failed = false;
          found = false;
        } }
    {
        Taken {
            messages,
            note,
            failed: false,
            found: false,
        }
    }

    /// A message comes. Nothing is sent, and no memory is asked for.
    pub fn deliver(&mut self, message: &Message)
        ensures { self.new ≡ take_reply self.old message.now }
    {
        self.client.take(message);
    }

    /// Takes an input, as [`Machine::take`] has it.
    ///
    /// # Errors
    ///
    /// Only if memory runs out, which is asked for only for what is sent; the client is then as
    /// before.
    pub fn take(&mut self, input: &Input) -> Result<Taken, AllocError>
        ensures answer { MatchResult result
            (IsTaken (AtClient self.old) (input_of input.now) any_store
            (λ state. state ≡ AtClient self.new))
            (λ refused. self.new ≡ self.old) }
        // Every refusal comes before out of memory.
        ensures memory { IsErr result → InputMayLack self.old (input_of input.now) }
    {
        match input {
            Input::Command(command) => match self.ask(command) {
                Ok(messages) => Ok(ClientMachine::answer(messages, Note::Done)),
                Err(ClientFault::Memory) => Err(AllocError),
                Err(fault) => {
                    let none = Messages::none(self.alloc);
                    Ok(ClientMachine::answer(none, Note::Refused(fault)))
                }
            },
            Input::Deliver(message) => {
                self.deliver(message);
                Ok(ClientMachine::answer(Messages::none(self.alloc), Note::Done))
            }
            Input::Expire(_)
            | Input::Remind
            | Input::Drop(_, _)
            | Input::Put(_)
            | Input::Restart(_) => {
                Ok(ClientMachine::answer(Messages::none(self.alloc), Note::Done))
            }
        }
    }
}

impl Machine for ClientMachine {
    ghost use Rattle.std.specs.Prelude.{◌≡◌};
    ghost use Rattle.kx_client_node.specs.Clients.{any_store};
    ghost use Rattle.kx_machine.specs.Meaning.{AtClient};

    ghost stands = { λ state machine. state ≡ AtClient machine };

    ghost allows = { λ machine. any_store };

    ghost failures_of = { λ client. 0 };

    fn take(&mut self, input: &Input) -> Result<Taken, AllocError> {
        ClientMachine::take(self, input)
    }

    fn deliver(&mut self, message: &Message) -> Result<Taken, AllocError> {
        ClientMachine::deliver(self, message);
        let none = Messages::none(self.alloc);
        Ok(ClientMachine::answer(none, Note::Done))
    }

    fn failures(&self) -> u64 {
        0
    }

    fn is_closed(&self) -> bool {
        false
    }

    fn log_end(&self) -> i64 {
        0
    }

    fn batches_from(&self, _from: i64, _max: u32) -> LogSlices<'_> {
        LogSlices::none()
    }
}
