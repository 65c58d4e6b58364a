//! Requests are taken and answered, one after the other.
use crate::closed::Closed;
use crate::left::end_of_nobody;
use crate::link::StockLink;
use crate::replies::{caller_of, fetch_reply, produce_reply};
use crate::table::{Kept, MakeFault};
use crate::transacting::TxnInit;
use crate::untaken::{UNTAKEN, untaken_reply};
use kx_gateway::{
    GatewayCode, InitAsk, NamedTopic, ProduceAsk, TopicAnswer, TopicFault, Topics,
    api_versions_frame, ask_init, ask_produce, asks_all, find_coordinator_frame, init_frame,
    is_topic_name, list_offsets_frame, listed, metadata_frame, produce_frame, produced,
    refused_init_frame, refused_offset, refused_produce,
};
use kx_kafka::{
    ApiKey, FieldReader, InitProducerIdRequest, IsolationLevel, KafkaFault, ListOffsetsPartition,
    ListOffsetsPartitionResponse, ListOffsetsRequest, MetadataRequest, PartitionProduceData,
    PartitionProduceResponse, ProduceRequest, Request, RequestFront, RequestHeader, Struct,
    Version, read_request,
};
use kx_message::{Caller, ErrorCode, Fetch, Message, PartitionId};
use kx_notices::{Closing, Said, TopicRefusal, Unserved};
use kx_published::book::Naming;
use kx_publishing::Readable;
use kx_server::{Hub, LogEnds};
use std::alloc::{AllocError, Global};
use std::sync::Wait;
use std::time::{Clock, Duration};

// The fields in front of a request have the same layout in each version.
const ANY_VERSION: Version = Version {
    number: 0,
    flexible: false,
};

/// How a request is answered.
#[derive(Drop)]
pub(crate) enum Answer {
    /// By this response.
    Frame(Vec<u8>),
    /// By nothing: a batch that no replica has to have.
    Nothing,
}

// How long a partition may take until it is tried whether the coordinator takes steps.
const SECONDS_UNTIL_TRIED: u64 = 1;

// How much longer a partition may take for a batch of a transaction, or for its offsets.
const PATIENCE_SECONDS: u64 = 30;

// Whether a name is one that Kafka keeps for topics of its own: no client's question makes them.
fn is_internal(name: &[u8]) -> bool {
    matches!(name, [b'_', b'_', ..])
}

// The text of a request, with what it is answered by.
#[derive(Drop)]
pub(crate) struct Asked<'a> {
    pub(crate) header: RequestHeader<'a>,
    pub(crate) text: &'a [u8],
}

// The number of the error by which a topic that can't be made is answered.
fn code_of(fault: MakeFault) -> i16 {
    match fault {
        MakeFault::Refused(TopicFault::Name) => GatewayCode::InvalidTopic.number(),
        MakeFault::Refused(_) => ErrorCode::UnknownTopicOrPartition.number(),
        MakeFault::Device => ErrorCode::KafkaStorageError.number(),
    }
}

// Why a topic can't be made, as whoever runs the server is told.
fn refusal_of(fault: MakeFault) -> TopicRefusal {
    match fault {
        MakeFault::Refused(TopicFault::Name) => TopicRefusal::Name,
        MakeFault::Refused(TopicFault::Memory) => TopicRefusal::Memory,
        MakeFault::Refused(_) => TopicRefusal::Full,
        MakeFault::Device => TopicRefusal::Device,
    }
}

// Why a connection closes whose request can't be read.
fn closing_of(fault: KafkaFault) -> Closing {
    match fault {
        KafkaFault::Key | KafkaFault::Version => Closing::NotServed,
        KafkaFault::Memory => Closing::Unanswered,
        _ => Closing::Request,
    }
}

// What a request asks for that isn't served: an API, or a version of one.
fn unserved_in(alloc: Global, front: &RequestFront<'_>) -> Result<Unserved, AllocError> {
    let Some(api) = ApiKey::from_number(front.api_key) else {
        return Ok(Unserved::Api { key: front.api_key });
    };
    let name = format!(in alloc; "{api:?}")?;
    Ok(Unserved::Version {
        api: Said::of(alloc, name.as_bytes())?,
        version: front.api_version,
        least: api.first_version() as i16,
        greatest: api.last_version() as i16,
    })
}

// The response to a request for the versions in a version that isn't spoken; any other request that
// can't be read closes the connection.
fn unread_answer(alloc: Global, text: &[u8], fault: KafkaFault) -> Result<Answer, Closed> {
    if fault != KafkaFault::Version {
        return Err(Closed);
    }
    let mut reader = FieldReader { rest: text };
    let front = RequestFront::read(&mut reader, ANY_VERSION)?;
    if front.api_key != ApiKey::ApiVersions.number() {
        return Err(Closed);
    }
    let code = GatewayCode::UnsupportedVersion.number();
    Ok(Answer::Frame(api_versions_frame(alloc, front.correlation_id, code)?))
}

/// A connection whose requests a thread answers.
#[derive(Drop)]
pub(crate) struct Session<'a, L: Readable, J: Naming, R: Wait + Clock + Drop> {
    pub(crate) rt: &'a R,
    pub(crate) alloc: Global,
    pub(crate) hub: &'a Hub<L, J, R>,
    pub(crate) link: &'a StockLink,
}

impl<'a, L: Readable, J: Naming, R: Wait + Clock + Drop> Session<'a, L, J, R> {
    /// Who sends the next message to the core: each has a number of its own among those of the
    /// connection's client, and one that is sent again keeps it.
    ///
    /// # Errors
    ///
    /// After 2^32 - 1 messages: the connection ends.
    pub(crate) fn caller(&self) -> Result<Caller, Closed> {
        self.link.next_caller(self.rt).ok_or(Closed)
    }

    /// Who reads published pages, of which the core isn't asked.
    pub(crate) fn reader(&self) -> Caller {
        Caller {
            client: self.link.client,
            correlation: 0,
        }
    }

    /// Sends a message to its node, whose step sends the reply. If the node takes no step, the reply is
    /// that of a node whose log is closed.
    ///
    /// # Errors
    ///
    /// If memory ran out for the step or for its reply.
    pub(crate) fn ask(&self, message: Message) -> Result<Message, Closed> {
        let caller = caller_of(&message);
        let untaken = untaken_reply(&message);
        if !self.hub.deliver(self.rt, message) {
            return untaken.ok_or(Closed);
        }
        self.reply_within(&caller, Duration::ZERO).ok_or(Closed)
    }

    // The reply to this caller that arrives within this time. One to a caller before is dropped.
    fn reply_within(&self, caller: &Option<Caller>, patience: Duration) -> Option<Message> {
        for _ in self.rt.forever() {
            let reply = self.link.peer.take_reply(self.rt, patience)?;
            if caller_of(&reply) == *caller {
                return Some(reply);
            }
        }
        None
    }

    // Whether the coordinator takes a step: not if its trace can't be written, or memory runs out.
    fn coordinator_steps(&self) -> bool {
        self.hub.deliver(self.rt, end_of_nobody())
    }

    /// Sends a message to a partition, which may ask the coordinator before it replies, and waits for
    /// the reply. If the partition takes no step, or it waits for a coordinator that takes none, the
    /// reply is that of a partition whose log is closed; the connection then ends with the response, as
    /// another reply may still come.
    ///
    /// # Errors
    ///
    /// If no reply is there after 30 seconds, as if memory ran out for it.
    pub(crate) fn ask_verified(&self, message: Message) -> Result<Message, Closed> {
        let caller = caller_of(&message);
        let untaken = untaken_reply(&message);
        if !self.hub.deliver(self.rt, message) {
            return untaken.ok_or(Closed);
        }
        let until_tried = Duration::from_secs(SECONDS_UNTIL_TRIED);
        if let Some(reply) = self.reply_within(&caller, until_tried) {
            return Ok(reply);
        }
        if !self.coordinator_steps() {
            self.link.end(self.rt);
            return untaken.ok_or(Closed);
        }
        self.reply_within(&caller, Duration::from_secs(PATIENCE_SECONDS))
            .ok_or(Closed)
    }

    /// The partition of a topic, if it is there.
    pub(crate) fn partition(&self, topic: &[u8], index: i32) -> Option<PartitionId> {
        let kept = self.link.shared.table.lock(self.rt);
        kept.topics.partition(topic, index)
    }

    // Tells whoever runs the server that a topic is made, or why not.
    fn tell_topic(&self, name: &[u8], made: Result<u16, TopicRefusal>) {
        self.hub.notices().topic_asked(self.rt, name, made);
    }

    // A topic that a client asks for: it is there, or is made if that is allowed.
    fn topic_for(&self, kept: &mut Kept, name: &[u8], may_make: bool) -> TopicAnswer {
        if let Some(count) = kept.topics.count_of(name) {
            return TopicAnswer::Partitions(count);
        }
        if !is_topic_name(name) {
            self.tell_topic(name, Err(TopicRefusal::Name));
            return TopicAnswer::Refused(GatewayCode::InvalidTopic.number());
        }
        if !may_make || !kept.may_make() || is_internal(name) {
            if may_make {
                self.tell_topic(name, Err(TopicRefusal::Forbidden));
            }
            return TopicAnswer::Refused(ErrorCode::UnknownTopicOrPartition.number());
        }
        match kept.make_asked(self.alloc, name) {
            Ok(()) => {
                self.tell_topic(name, Ok(1));
                TopicAnswer::Partitions(1)
            }
            Err(fault) => {
                self.tell_topic(name, Err(refusal_of(fault)));
                TopicAnswer::Refused(code_of(fault))
            }
        }
    }

    // All topics that there are.
    fn all_topics<'t>(&self, topics: &'t Topics) -> Result<Vec<NamedTopic<'t>>, Closed> {
        let mut named = Vec::new(self.alloc);
        for topic in topics.topics() {
            named.push(NamedTopic {
                name: topic.name(),
                answer: TopicAnswer::Partitions(topic.count()),
            })?;
        }
        Ok(named)
    }

    // The topics that a client asks for.
    fn asked_topics<'t>(
        &self,
        kept: &mut Kept,
        request: MetadataRequest<'t>,
    ) -> Result<Vec<NamedTopic<'t>>, Closed> {
        let may_make = request.allow_auto_topic_creation;
        let mut named = Vec::new(self.alloc);
        if let Some(topics) = request.topics {
            for topic in topics {
                let answer = self.topic_for(kept, topic.name, may_make);
                named.push(NamedTopic {
                    name: topic.name,
                    answer,
                })?;
            }
        }
        Ok(named)
    }

    // The response to Metadata with these topics.
    fn metadata_of(&self, asked: &Asked<'_>, named: &[NamedTopic<'_>]) -> Result<Answer, Closed> {
        let broker = self.link.broker();
        let frame = metadata_frame(self.alloc, &asked.header, broker, named)?;
        Ok(Answer::Frame(frame))
    }

    // The response to Metadata.
    fn metadata(&self, asked: &Asked<'_>, request: MetadataRequest<'_>) -> Result<Answer, Closed> {
        let mut kept = self.link.shared.table.lock(self.rt);
        if asks_all(&asked.header, &request) {
            let named = self.all_topics(&kept.topics)?;
            return self.metadata_of(asked, named.as_slice());
        }
        let named = self.asked_topics(&mut kept, request)?;
        self.metadata_of(asked, named.as_slice())
    }

    // What is answered for the batch of a partition.
    fn append(&self, index: i32, step: ProduceAsk<'_>) -> Result<PartitionProduceResponse, Closed> {
        match step {
            ProduceAsk::Refused(code) => Ok(refused_produce(index, code)),
            ProduceAsk::Append(produce) => {
                let reply = produce_reply(&self.ask(Message::Produce(produce))?)?;
                Ok(produced(index, &reply))
            }
            ProduceAsk::InTransaction(batch) => self.append_in_transaction(index, &batch),
        }
    }

    // What becomes of the batch of a partition.
    fn step<'t>(
        &self,
        acks: i16,
        id: Option<&[u8]>,
        topic: &[u8],
        data: &PartitionProduceData<'t>,
    ) -> Result<ProduceAsk<'t>, Closed> {
        let caller = self.caller()?;
        let kept = self.link.shared.table.lock(self.rt);
        let step = ask_produce(self.alloc, &kept.topics, caller, acks, id, topic, data)?;
        Ok(step)
    }

    // The answers to the batches of a Produce, in the request's order.
    fn append_all(
        &self,
        request: ProduceRequest<'_>,
    ) -> Result<Vec<PartitionProduceResponse>, Closed> {
        let mut answers = Vec::new(self.alloc);
        let (acks, id) = (request.acks, request.transactional_id);
        for topic in request.topic_data {
            for data in topic.partition_data {
                let step = self.step(acks, id, topic.name, &data)?;
                answers.push(self.append(data.index, step)?)?;
            }
        }
        Ok(answers)
    }

    // The response to Produce. With acks 0 there is none, and a batch that was refused closes the
    // connection, by which the client learns of it.
    fn produce(&self, asked: &Asked<'_>, request: ProduceRequest<'_>) -> Result<Answer, Closed> {
        let is_answered = request.acks != 0;
        let answers = self.append_all(request)?;
        if !is_answered {
            if answers.iter().any(|answer| answer.error_code != 0) {
                self.link.peer.closes(self.rt, Closing::Batch);
                return Err(Closed);
            }
            return Ok(Answer::Nothing);
        }
        // The request is read once more, for the names in its response; that takes no memory.
        let Ok((_, Request::Produce(request))) = read_request(asked.text) else {
            return Err(Closed);
        };
        let frame = produce_frame(self.alloc, &asked.header, request, answers.as_slice())?;
        Ok(Answer::Frame(frame))
    }

    /// Where a partition's log ends.
    pub(crate) fn ends(&self, partition: PartitionId) -> Result<LogEnds, Closed> {
        if let Some(ends) = self.hub.ends(self.rt, partition) {
            return Ok(ends.into_value());
        }
        let fetch = Fetch {
            caller: self.caller()?,
            partition,
            from: 0,
            max: 0,
            committed: false,
        };
        let reply = fetch_reply(self.ask(Message::Fetch(fetch))?)?;
        Ok(LogEnds {
            end: reply.end,
            lso: reply.lso,
        })
    }

    // The offset of a partition that is asked for.
    fn offset(
        &self,
        committed: bool,
        topic: &[u8],
        asked: &ListOffsetsPartition<'_>,
    ) -> Result<ListOffsetsPartitionResponse, Closed> {
        let index = asked.partition_index;
        let Some(partition) = self.partition(topic, index) else {
            let code = ErrorCode::UnknownTopicOrPartition.number();
            return Ok(refused_offset(index, code));
        };
        match self.ends(partition) {
            Ok(LogEnds { end, lso }) => Ok(listed(index, asked.timestamp, committed, end, lso)),
            Err(Closed) => Ok(refused_offset(index, UNTAKEN.number())),
        }
    }

    // The response to ListOffsets. Each partition is refused if Kafka has no such isolation level.
    fn list_offsets(
        &self,
        asked: &Asked<'_>,
        request: ListOffsetsRequest<'_>,
    ) -> Result<Answer, Closed> {
        let level = IsolationLevel::from_number(request.isolation_level);
        let mut answers = Vec::new(self.alloc);
        for topic in request.topics {
            for partition in topic.partitions {
                let answer = match &level {
                    Some(level) => {
                        let committed = *level == IsolationLevel::ReadCommitted;
                        self.offset(committed, topic.name, &partition)?
                    }
                    None => {
                        let code = GatewayCode::InvalidRequest.number();
                        refused_offset(partition.partition_index, code)
                    }
                };
                answers.push(answer)?;
            }
        }
        let Ok((_, Request::ListOffsets(request))) = read_request(asked.text) else {
            return Err(Closed);
        };
        let frame = list_offsets_frame(self.alloc, &asked.header, request, answers.as_slice())?;
        Ok(Answer::Frame(frame))
    }

    /// The response to a request for an id that is refused with this code.
    pub(crate) fn refuse_init(&self, asked: &Asked<'_>, code: i16) -> Result<Answer, Closed> {
        Ok(Answer::Frame(refused_init_frame(self.alloc, &asked.header, code)?))
    }

    // The response to InitProducerId.
    fn init_producer_id(
        &self,
        asked: &Asked<'_>,
        request: &InitProducerIdRequest<'_>,
    ) -> Result<Answer, Closed> {
        match ask_init(self.caller()?, request) {
            InitAsk::Refused(code) => self.refuse_init(asked, code),
            InitAsk::Ask(init) => {
                let reply = self.ask_init(&init)?;
                Ok(Answer::Frame(init_frame(self.alloc, &asked.header, &reply)?))
            }
            InitAsk::Transactional { txn, timeout, held } => {
                let init = TxnInit { txn, timeout, held };
                self.init_transactional(asked, &init)
            }
        }
    }

    // Tells whoever runs the server of a request that isn't served.
    fn tell_unserved(&self, text: &[u8]) -> Result<(), Closed> {
        let mut reader = FieldReader { rest: text };
        let front = RequestFront::read(&mut reader, ANY_VERSION)?;
        let client = reader.nullable_text(ANY_VERSION)?.unwrap_or(b"");
        let asked = unserved_in(self.alloc, &front)?;
        let number = self.link.peer.number();
        self.hub
            .notices()
            .not_served(self.rt, number, client, asked);
        Ok(())
    }

    // What a request that can't be read is answered by, if the connection doesn't close.
    fn answer_unread(&self, text: &[u8], fault: KafkaFault) -> Result<Answer, Closed> {
        if closing_of(fault) == Closing::NotServed {
            // (a name that can't be read isn't told)
            let _ = self.tell_unserved(text);
        }
        let answer = unread_answer(self.alloc, text, fault);
        if answer.is_err() {
            self.link.peer.closes(self.rt, closing_of(fault));
        }
        answer
    }

    // What a request is answered by.
    fn answer(&self, text: &[u8]) -> Result<Answer, Closed> {
        let (header, request) = match read_request(text) {
            Ok(read) => read,
            Err(fault) => return self.answer_unread(text, fault),
        };
        let asked = Asked { header, text };
        match request {
            Request::Produce(it) => self.produce(&asked, it),
            Request::Fetch(_) => self.fetch(&asked),
            Request::ListOffsets(it) => self.list_offsets(&asked, it),
            Request::Metadata(it) => self.metadata(&asked, it),
            Request::InitProducerId(it) => { self.init_producer_id(&asked, &it) }
            Request::AddPartitionsToTxn(it) => self.add_partitions(&asked, it),
            Request::AddOffsetsToTxn(it) => self.add_offsets(&asked, &it),
            Request::EndTxn(it) => self.end_txn(&asked, &it),
            Request::TxnOffsetCommit(it) => self.txn_offset_commit(&asked, it),
            Request::OffsetCommit(it) => self.offset_commit(&asked, it),
            Request::OffsetFetch(it) => self.offset_fetch(&asked, it),
            Request::JoinGroup(it) => self.join_group(&asked, it),
            Request::SyncGroup(it) => self.sync_group(&asked, it),
            Request::Heartbeat(it) => self.heartbeat(&asked, &it),
            Request::LeaveGroup(it) => self.leave_group(&asked, &it),
            Request::FindCoordinator(_) => {
                let broker = self.link.broker();
                let frame = find_coordinator_frame(self.alloc, &asked.header, broker)?;
                Ok(Answer::Frame(frame))
            }
            Request::ApiVersions(_) => {
                let frame = api_versions_frame(self.alloc, asked.header.correlation_id, 0)?;
                Ok(Answer::Frame(frame))
            }
        }
    }

    // Answers requests until none comes any more, or one can't be answered.
    fn answer_each(&self) -> Result<(), Closed> {
        self.hub.speaks(self.link.client, &self.link.peer)?;
        for _ in self.rt.forever() {
            let Some(text) = self.link.inbox.next(self.rt) else {
                return Ok(());
            };
            self.hub.wait_for_workers(self.rt);
            match self.answer(text.as_slice())? {
                Answer::Frame(frame) => {
                    if !self.link.peer.write(frame.as_slice()) {
                        self.link.peer.closes(self.rt, Closing::Unwritten);
                        return Err(Closed);
                    }
                }
                Answer::Nothing => {}
            }
            if self.link.has_ended(self.rt) {
                return Err(Closed);
            }
        }
        Ok(())
    }

    /// Answers the requests of a connection, each when the one before was answered, until either end
    /// closes it. One that can't be read, or isn't offered, closes it.
    pub(crate) fn answer_all(&self) {
        let ended = self.answer_each();
        if ended.is_err() {
            self.link.peer.closes(self.rt, Closing::Unanswered);
        }
        self.hub.forget(&self.link.peer);
        self.link.inbox.close(self.rt);
        if ended.is_err() {
            self.link.peer.hang_up(self.rt);
        } else {
            self.link.peer.finish(self.rt);
            self.link.peer.end_writing();
        }
    }
}
