//! The requests of clients and partitions: each is answered, and its entry appended first.
ghost use Rattle.std.specs.Prelude.{◌≡◌, [], ◌∷◌, None, IfOk, OnErr, MatchResult};
ghost use Rattle.kx_model.specs.Coordinator as coordinator;
ghost use Rattle.kx_model.specs.Markers.{markers_after};
ghost use Rattle.kx_model.specs.Requests as model;
ghost use Rattle.kx_txnlog.specs.Entry.{note_of};
ghost use Rattle.kx_message.specs.Messages as the;
ghost use Rattle.kx_message.specs.declared.code.ErrorCode.TheVariants as error;
ghost use Rattle.kx_coord.specs.Internal.Answers.{IsAnswer, IsResponse, reply_by};
ghost use Rattle.kx_coord.specs.Calls.{Hands, IsToAppend, Responds};

use crate::add_partition::add_row;
use crate::answer::{Answer, ReplyTo, Response, refuses};
use crate::coordinator::Coordinator;
use crate::end_txn::end_row;
use crate::init_producer_id::{allot, init_first, init_row};
use crate::markers::push_markers;
use kx_log::Store;
use kx_message::{
    AddPartition, ClientId, EndTxn, ErrorCode, InitProducerId, Message, Timeout, TxnId,
};
use kx_messages::Messages;
use kx_txnlog::{Entry, State};
use std::alloc::AllocError;

// The response if no entry can be appended, since no producer id is left or the log is closed: 56.
fn unwritten() -> Response
    ensures { result ≡ record { entry = None; code = error.KafkaStorageError; held = None } }
{
    Response {
        entry: None,
        code: ErrorCode::KafkaStorageError,
        held: None,
    }
}

impl<S: Store> Coordinator<S> {
    // The messages of an appended entry: this one and the markers that the entry owes. This one
    // alone takes no memory.
    fn handed_with(&self, message: Message, entry: &Entry) -> Result<Messages, AllocError>
        ensures { IfOk result (λ handed. handed ≡ message ∷ markers_after
            (coordinator.coordinator_epoch self.now.log.notes) (note_of entry.now)) }
    {
        let Entry::Row(row) = entry else {
            return Ok(Messages::one(message));
        };
        if !matches!(row.state, State::Prepare(_)) {
            return Ok(Messages::one(message));
        }
        let mut handed = vec![in self.alloc; message]?;
        push_markers(&mut handed, self.alloc, self.table.epoch, row)?;
        Ok(Messages::from_vec(handed))
    }

    // Appends an entry. Sends this message and the markers that the entry owes, or the other one
    // if it wasn't appended.
    fn write(
        &mut self,
        entry: Entry,
        done: Message,
        failed: Message,
    ) -> Result<Messages, AllocError>
        ensures { MatchResult result (λ handed.
            Hands self.old self.new (note_of entry) (done ∷ []) (failed ∷ []) handed)
            (λ refused. self.new ≡ self.old) }
    {
        let handed = self.handed_with(done, &entry)?;
        if self.append(entry)? {
            Ok(handed)
        } else {
            Ok(Messages::one(failed))
        }
    }

    // What is done about a request that is answered so. No entry is made for a closed log.
    fn response(&self, answer: Answer<'_>) -> Result<Response, AllocError>
        ensures ok { (a : model.Answer) → IsAnswer answer.entry a
            → IfOk result (IsResponse self.now a) }
        ensures memory { (a : model.Answer) → IsAnswer answer.entry a
            → OnErr result (IsToAppend self.now a) }
    {
        match answer {
            Answer::Replies { code, held } => Ok(Response {
                entry: None,
                code,
                held,
            }),
            Answer::UsedUp => Ok(unwritten()),
            Answer::Writes { entry, code, held } => {
                if self.log.is_closed() {
                    return Ok(unwritten());
                }
                let entry = entry.into_entry()?;
                Ok(Response {
                    entry: Some(entry),
                    code,
                    held,
                })
            }
        }
    }

    // Does what is to be done about a request, and answers it. A reply alone takes no memory.
    fn respond(&mut self, response: Response, to: &ReplyTo) -> Result<Messages, AllocError>
        ensures ok { (a : model.Answer) → IsResponse self.old a response → IfOk result
            (λ handed. Responds self.old self.new a (reply_by to.now) handed) }
        ensures err { OnErr result (self.new ≡ self.old) }
        ensures memory { (a : model.Answer) → IsResponse self.old a response
            → OnErr result (IsToAppend self.old a) }
    {
        let Response { entry, code, held } = response;
        let reply = to.message(code, held);
        let Some(entry) = entry else {
            return Ok(Messages::one(reply));
        };
        let failed = to.message(ErrorCode::KafkaStorageError, None);
        self.write(entry, reply, failed)
    }

    // What a client is answered that asks for an id.
    fn init_answer(&self, client: ClientId, txn: Option<TxnId>, timeout: Timeout) -> Answer<'_>
        ensures { IsAnswer result (model.init self.now.log.notes client txn timeout) }
    {
        let fresh = self.fresh();
        let txn = match txn {
            None => return allot(fresh),
            Some(txn) => txn,
        };
        let Some(row) = self.row(txn) else {
            return init_first(fresh, client, txn, timeout);
        };
        init_row(fresh, client, timeout, row)
    }

    // What a partition is answered that asks to be added.
    fn add_answer(&self, request: &AddPartition) -> Answer<'_>
        ensures { IsAnswer result (model.add self.now.log.notes self.now.clock request.now.txn
            request.now.held request.now.partition) }
    {
        let clock = self.clock;
        let fresh = self.fresh();
        let Some(row) = self.row(request.txn) else {
            return refuses(ErrorCode::InvalidProducerIdMapping);
        };
        add_row(fresh, clock, row, &request.held, request.partition)
    }

    // What a client is answered that ends its transaction.
    fn end_answer(&self, request: &EndTxn) -> Answer<'_>
        ensures { IsAnswer result (model.end_txn self.now.log.notes request.now.txn
            request.now.held request.now.outcome) }
    {
        let fresh = self.fresh();
        let Some(row) = self.row(request.txn) else {
            return refuses(ErrorCode::InvalidProducerIdMapping);
        };
        end_row(fresh, row, &request.held, request.outcome)
    }

    /// A client asks for an id and an epoch, with a transactional id or without one, and with the
    /// timeout of its transactions. Sends its reply, and after it, if the owner before is
    /// fenced, the markers of its transaction.
    ///
    /// # Errors
    ///
    /// Only if memory runs out, and if an entry is to be appended and the coordinator isn't
    /// closed; then the coordinator is as before.
    pub fn init(&mut self, request: InitProducerId) -> Result<Messages, AllocError>
        ensures ok { IfOk result (λ handed. Responds self.old self.new
            (model.init self.old.log.notes request.caller.client request.txn request.timeout)
            (the.InitReply request.caller) handed) }
        ensures err { OnErr result (self.new ≡ self.old) }
        // Memory is asked for only if an entry is to be appended, to a log that isn't closed.
        ensures memory { OnErr result (IsToAppend self.old
            (model.init self.old.log.notes request.caller.client request.txn request.timeout)) }
    {
        let InitProducerId {
            caller,
            txn,
            timeout,
        } = request;
        let response = self.response(self.init_answer(caller.client, txn, timeout))?;
        self.respond(response, &ReplyTo::Init(caller))
    }

    /// A partition asks to be added to the transaction of this id and epoch. Sends its reply.
    ///
    /// # Errors
    ///
    /// Only if memory runs out, and if an entry is to be appended and the coordinator isn't
    /// closed; then the coordinator is as before.
    pub fn add_partition(&mut self, request: AddPartition) -> Result<Messages, AllocError>
        ensures ok { IfOk result (λ handed. Responds self.old self.new
            (model.add self.old.log.notes self.old.clock request.txn request.held
            request.partition)
            (λ code after. the.AddReply request.partition request.txn request.held code)
            handed) }
        ensures err { OnErr result (self.new ≡ self.old) }
        // Memory is asked for only if an entry is to be appended, to a log that isn't closed.
        ensures memory { OnErr result (IsToAppend self.old (model.add self.old.log.notes
            self.old.clock request.txn request.held request.partition)) }
    {
        let response = self.response(self.add_answer(&request))?;
        self.respond(response, &ReplyTo::Add(request))
    }

    /// A client ends its transaction. Sends its reply and the markers.
    ///
    /// # Errors
    ///
    /// Only if memory runs out, and if an entry is to be appended and the coordinator isn't
    /// closed; then the coordinator is as before.
    pub fn end_txn(&mut self, request: EndTxn) -> Result<Messages, AllocError>
        ensures ok { IfOk result (λ handed. Responds self.old self.new
            (model.end_txn self.old.log.notes request.txn request.held request.outcome)
            (the.EndReply request.caller) handed) }
        ensures err { OnErr result (self.new ≡ self.old) }
        // Memory is asked for only if an entry is to be appended, to a log that isn't closed.
        ensures memory { OnErr result (IsToAppend self.old
            (model.end_txn self.old.log.notes request.txn request.held request.outcome)) }
    {
        let response = self.response(self.end_answer(&request))?;
        self.respond(response, &ReplyTo::End(request.caller))
    }
}
