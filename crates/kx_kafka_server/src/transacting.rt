//! Producers with a transactional id: what they ask of the coordinator, and their batches.
use crate::absent::{ASK_AGAIN, Absent};
use crate::answering::{Answer, Asked, Session};
use crate::closed::Closed;
use crate::committing::is_own;
use crate::left::id_to_pass;
use crate::replies::{end_reply, init_reply, produce_reply};
use crate::span::keeps_nothing;
use kx_gateway::{
    GatewayCode, TxnBatch, add_offsets_frame, add_partitions_frame, coordinator_code,
    end_txn_frame, held_of, init_frame, produced, refused_produce, txn_of,
};
use kx_grant::{
    BatchVerdict, ClientBatch, EndStep, Granting, InitVerdict, Producer, init_fenced_code,
    outcome_of,
};
use kx_kafka::{
    AddOffsetsToTxnRequest, AddPartitionsToTxnRequest, EndTxnRequest, PartitionProduceResponse,
    Request, read_request,
};
use kx_message::{
    Caller, ClientId, EndReply, EndTxn, ErrorCode, Held, InitProducerId, InitReply, Message,
    Outcome, PartitionId, ProduceReply, Timeout, TxnId,
};
use kx_notices::Shortage;
use kx_published::book::Naming;
use kx_publishing::Readable;
use std::sync::{Arc, Mutex, Wait};
use std::thread;
use std::time::{Clock, Duration};

// How many ids are passed over at most before a request is answered: as many as at a start, and one.
const MOST_PASSED: u32 = 65_537;

// While markers are under way, the core is asked again after this long, and at most so often: then
// the client is told so.
const PAUSE_MILLIS: u64 = 5;

const MOST_ASKED: usize = 400;

// A request for an id is asked of the core twice at most: its second pair is never the one that the
// client named.
const MOST_GRANTS: usize = 2;

// The code for a producer of whom the server knows no grant.
const UNKNOWN: ErrorCode = ErrorCode::InvalidProducerIdMapping;

// A request for an id with a transactional id.
#[derive(Clone, Copy)]
pub(crate) struct TxnInit {
    pub(crate) txn: TxnId,
    pub(crate) timeout: Timeout,
    pub(crate) held: Option<Held>,
}

// The version of a request.
fn version_of(asked: &Asked<'_>) -> i16 {
    match i16::try_from(asked.header.version.number) {
        Ok(version) => version,
        Err(_) => i16::MAX,
    }
}

// What a batch says of itself.
fn client_batch(batch: &TxnBatch<'_>) -> ClientBatch {
    ClientBatch {
        held: batch.held(),
        partition: batch.partition(),
        first: batch.first(),
        count: batch.count(),
    }
}

impl<'a, L: Readable, J: Naming, R: Wait + Clock + Drop> Session<'a, L, J, R> {
    // The number of the connection; a connection that was taken later has a greater one.
    pub(crate) fn number(&self) -> u64 {
        self.link.peer.number() as u64
    }

    // How often the core is asked at most.
    pub(crate) fn most_asked(&self) -> usize {
        MOST_ASKED
    }

    // Waits before the core is asked again.
    pub(crate) fn pause(&self) {
        thread::sleep(self.rt, Duration::from_millis(PAUSE_MILLIS));
    }

    // Whether the coordinator allocates no id any more that a log named as the server began. Ids that a
    // start didn't get are asked for here, and given to nobody.
    fn passes_named_ids(&self) -> Result<bool, Closed> {
        let named = &self.link.shared.named;
        for _ in 0..MOST_PASSED {
            if named.are_passed(self.rt) {
                return Ok(true);
            }
            match init_reply(&self.ask(id_to_pass(self.caller()?))?)?.held {
                None => return Ok(false),
                Some(held) => named.note(self.rt, held),
            }
        }
        Ok(named.are_passed(self.rt))
    }

    /// Asks the coordinator for an id. While it may allocate one that a log names, the reply is that of
    /// a coordinator whose log is closed.
    pub(crate) fn ask_init(&self, init: &InitProducerId) -> Result<InitReply, Closed> {
        if !self.passes_named_ids()? {
            return Ok(InitReply {
                caller: init.caller,
                code: ErrorCode::KafkaStorageError,
                held: None,
            });
        }
        init_reply(&self.ask(Message::InitProducerId(*init))?)
    }

    // Asks the coordinator, and again while it answers that markers are under way.
    fn ask_for_id(&self, init: InitProducerId) -> Result<InitReply, Closed> {
        for _ in 0..MOST_ASKED {
            let reply = self.ask_init(&init)?;
            if reply.code != ErrorCode::ConcurrentTransactions {
                return Ok(reply);
            }
            self.pause();
        }
        Ok(InitReply {
            caller: init.caller,
            code: ErrorCode::ConcurrentTransactions,
            held: None,
        })
    }

    // Asks the coordinator as this client.
    fn ask_as_client(&self, client: ClientId, init: &TxnInit) -> Result<InitReply, Closed> {
        self.hub.speaks(client, &self.link.peer)?;
        let reply = self.ask_for_id(InitProducerId {
            caller: Caller {
                client,
                correlation: 0,
            },
            txn: Some(init.txn),
            timeout: init.timeout,
        });
        self.hub.forget_client(client);
        reply
    }

    // Asks the coordinator as a client of a new number: a request fences those of lower numbers. The
    // number isn't used if the request is refused.
    pub(crate) fn ask_as_newest(&self, init: &TxnInit) -> Result<InitReply, Closed> {
        let Some(client) = self.link.shared.numbers.take(self.rt) else {
            return Err(Closed);
        };
        let reply = self.ask_as_client(client, init)?;
        if keeps_nothing(reply.code) {
            self.link.shared.numbers.give_back(self.rt, client);
        }
        Ok(reply)
    }

    // A producer asks for an id, of which the core is asked. The code if it is granted none.
    fn grant_to(
        &self,
        producer: &mut Producer,
        version: i16,
        init: &TxnInit,
    ) -> Result<Result<InitReply, ErrorCode>, Closed> {
        for _ in 0..MOST_GRANTS {
            let reply = self.ask_as_newest(init)?;
            match producer.granted(version, init.held, self.number(), &reply) {
                Granting::Granted(_) => return Ok(Ok(reply)),
                Granting::Refused(code) => return Ok(Err(code)),
                Granting::AskAgain => {}
            }
        }
        Err(Closed)
    }

    // What a producer that asks for an id is granted, or the code if it is granted none.
    fn init_of(
        &self,
        producer: &Mutex<Producer>,
        version: i16,
        init: &TxnInit,
    ) -> Result<Result<InitReply, ErrorCode>, Closed> {
        let mut producer = producer.lock(self.rt);
        match producer.init(init.held, self.number()) {
            None => Err(Closed),
            Some(InitVerdict::Ask) => self.grant_to(&mut producer, version, init),
            Some(InitVerdict::Fenced) => Ok(Err(init_fenced_code(version))),
        }
    }

    // The response to InitProducerId where as many transactional ids are kept as may be: the client
    // is to ask again.
    fn refuse_one_more(&self, asked: &Asked<'_>) -> Result<Answer, Closed> {
        if self.link.shared.producers.is_full_anew(self.rt) {
            let what = Shortage::TransactionalIds;
            self.hub.notices().ran_out(self.rt, what);
        }
        self.refuse_init(asked, ASK_AGAIN)
    }

    // The response to InitProducerId with a transactional id that clients may have.
    fn init_allowed(&self, asked: &Asked<'_>, init: &TxnInit) -> Result<Answer, Closed> {
        let producers = &self.link.shared.producers;
        let producer = match producers.enter(self.rt, init.txn) {
            Ok(producer) => producer,
            Err(Absent::Memory) => return Err(Closed),
            Err(Absent::Full) => return self.refuse_one_more(asked),
        };
        let answered = self.init_of(&producer, version_of(asked), init);
        producers.leave(self.rt, &init.txn, matches!(&answered, Ok(Ok(_))));
        match answered? {
            Ok(reply) => Ok(Answer::Frame(init_frame(self.alloc, &asked.header, &reply)?)),
            Err(code) => self.refuse_init(asked, coordinator_code(code)),
        }
    }

    /// The response to InitProducerId with a transactional id. The server's own are refused, and those
    /// whose owner leaves no number.
    pub(crate) fn init_transactional(
        &self,
        asked: &Asked<'_>,
        init: &TxnInit,
    ) -> Result<Answer, Closed> {
        if is_own(&init.txn) || self.link.shared.foreign.has(&init.txn) {
            let code = GatewayCode::TransactionalIdAuthorizationFailed;
            return self.refuse_init(asked, code.number());
        }
        self.init_allowed(asked, init)
    }

    // The producer of a transactional id, by its text. None if it was never granted.
    pub(crate) fn producer_of(&self, txn: &[u8]) -> Option<(TxnId, Arc<Mutex<Producer>>)> {
        let txn = txn_of(txn)?;
        let producer = self.link.shared.producers.find(self.rt, &txn)?;
        Some((txn, producer))
    }

    // What is answered for a partition that is listed for a transactional id.
    fn add(
        &self,
        txn: &[u8],
        held: &Option<Held>,
        partition: PartitionId,
    ) -> Result<ErrorCode, Closed> {
        let Some(held) = held else {
            return Ok(UNKNOWN);
        };
        let Some((_, producer)) = self.producer_of(txn) else {
            return Ok(UNKNOWN);
        };
        let mut producer = producer.lock(self.rt);
        producer
            .add_partition(*held, partition, self.number())
            .ok_or(Closed)
    }

    // What is answered for each partition that is listed.
    fn add_all(&self, request: AddPartitionsToTxnRequest<'_>) -> Result<Vec<i16>, Closed> {
        let txn = request.transactional_id;
        let held = held_of(request.producer_id, request.producer_epoch);
        let mut codes = Vec::new(self.alloc);
        for topic in request.topics {
            for asked in topic.partitions {
                let index = asked.value;
                let code = match self.partition(topic.name, index) {
                    Some(partition) => self.add(txn, &held, partition)?,
                    None => ErrorCode::UnknownTopicOrPartition,
                };
                codes.push(code.number())?;
            }
        }
        Ok(codes)
    }

    /// The response to AddPartitionsToTxn.
    pub(crate) fn add_partitions(
        &self,
        asked: &Asked<'_>,
        request: AddPartitionsToTxnRequest<'_>,
    ) -> Result<Answer, Closed> {
        let codes = self.add_all(request)?;
        // The request is read once more, for the names in its response; that takes no memory.
        let Ok((_, Request::AddPartitionsToTxn(request))) = read_request(asked.text) else {
            return Err(Closed);
        };
        let frame = add_partitions_frame(self.alloc, &asked.header, request, codes.as_slice())?;
        Ok(Answer::Frame(frame))
    }

    /// The response to AddOffsetsToTxn.
    pub(crate) fn add_offsets(
        &self,
        asked: &Asked<'_>,
        request: &AddOffsetsToTxnRequest<'_>,
    ) -> Result<Answer, Closed> {
        let held = held_of(request.producer_id, request.producer_epoch);
        let code = self.add(request.transactional_id, &held, PartitionId::OFFSETS)?;
        Ok(Answer::Frame(add_offsets_frame(self.alloc, &asked.header, code.number())?))
    }

    // Asks the coordinator to end a transaction, and again while it answers that markers are under
    // way.
    pub(crate) fn ask_for_end(&self, end: EndTxn) -> Result<EndReply, Closed> {
        for _ in 0..MOST_ASKED {
            let reply = end_reply(&self.ask(Message::EndTxn(end))?)?;
            if reply.code != ErrorCode::ConcurrentTransactions {
                return Ok(reply);
            }
            self.pause();
        }
        Ok(EndReply {
            caller: end.caller,
            code: ErrorCode::ConcurrentTransactions,
            held: None,
        })
    }

    // What a producer that ends its transaction is answered.
    fn end(
        &self,
        producer: &mut Producer,
        version: i16,
        asked: &EndTxn,
    ) -> Result<ErrorCode, Closed> {
        match producer.end(version, asked, self.number()) {
            None => Err(Closed),
            Some(EndStep::Answer(code)) => Ok(code),
            Some(EndStep::Ask(end)) => {
                let reply = self.ask_for_end(end)?;
                Ok(producer.end_answered(version, &end, &reply))
            }
        }
    }

    // What is answered for a transaction that is to end.
    fn end_code_of(&self, version: i16, request: &EndTxnRequest<'_>) -> Result<ErrorCode, Closed> {
        let Some(held) = held_of(request.producer_id, request.producer_epoch) else {
            return Ok(UNKNOWN);
        };
        let Some((txn, producer)) = self.producer_of(request.transactional_id) else {
            return Ok(UNKNOWN);
        };
        let end = EndTxn {
            caller: self.caller()?,
            txn,
            held,
            outcome: outcome_of(request.committed),
        };
        let mut producer = producer.lock(self.rt);
        self.end(&mut producer, version, &end)
    }

    /// The response to EndTxn.
    pub(crate) fn end_txn(
        &self,
        asked: &Asked<'_>,
        request: &EndTxnRequest<'_>,
    ) -> Result<Answer, Closed> {
        let code = self.end_code_of(version_of(asked), request)?;
        let code = coordinator_code(code);
        Ok(Answer::Frame(end_txn_frame(self.alloc, &asked.header, code)?))
    }

    // Asks the partition to append a batch with the core's pair and sequence, and again while the
    // markers of the transaction before are under way.
    fn ask_to_append(
        &self,
        batch: &TxnBatch<'_>,
        held: Held,
        first: i32,
    ) -> Result<ProduceReply, Closed> {
        let caller = self.caller()?;
        for _ in 0..MOST_ASKED {
            let produce = batch.produce(self.alloc, caller, held, first)?;
            let reply = produce_reply(&self.ask_verified(Message::Produce(produce))?)?;
            if reply.code != ErrorCode::ConcurrentTransactions {
                return Ok(reply);
            }
            self.pause();
        }
        Err(Closed)
    }

    // What a producer is answered for its batch.
    fn append_of(
        &self,
        producer: &mut Producer,
        index: i32,
        batch: &TxnBatch<'_>,
    ) -> Result<PartitionProduceResponse, Closed> {
        let claims = client_batch(batch);
        match producer.batch(&claims, self.number()) {
            None => Err(Closed),
            Some(BatchVerdict::Refused(code)) => Ok(refused_produce(index, code.number())),
            Some(BatchVerdict::Send { held, first }) => {
                let mut reply = self.ask_to_append(batch, held, first)?;
                reply.code = producer.batch_answered(&claims, reply.code);
                Ok(produced(index, &reply))
            }
        }
    }

    /// What is answered for a batch of a transaction.
    pub(crate) fn append_in_transaction(
        &self,
        index: i32,
        batch: &TxnBatch<'_>,
    ) -> Result<PartitionProduceResponse, Closed> {
        let Some(producer) = self.link.shared.producers.find(self.rt, &batch.txn()) else {
            return Ok(refused_produce(index, UNKNOWN.number()));
        };
        let mut producer = producer.lock(self.rt);
        self.append_of(&mut producer, index, batch)
    }
}
