//! What a step did, in a few words, and by which rule.
use crate::fields::{answer_in, code_of, has_marker};
use crate::seen::{Seen, Took};
use crate::words::{by_outcome, name_of, word_of};
use kx_client::ClientFault;
use kx_machine::{Command, Input, Note};
use kx_message::{ErrorCode, Held, InitReply, Message, Outcome, PartitionId, ProduceReply};
use kx_page::{Mark, Rule};
use kx_partition::Produced;
use std::alloc::{AllocError, Global};

/// What a step did, in a few words.
#[derive(Clone, Copy)]
pub(crate) enum Title {
    /// These words.
    Words(&'static str),
    /// These words and an offset.
    At(&'static str, i64),
    /// These words and the id and epoch of a producer.
    Id(&'static str, Held),
    /// A client sends this many records to a partition.
    Sends(usize, PartitionId),
    /// A client outside sends a request of this kind.
    Asks(&'static str),
    /// A client refuses a command.
    Refuses(ClientFault),
}

/// What a title says.
///
/// # Errors
///
/// Only if memory runs out.
pub(crate) fn text_of(alloc: Global, title: &Title) -> Result<String, AllocError> {
    match title {
        Title::Words(words) => String::from_str(alloc, words),
        Title::At(words, offset) => format!(in alloc; "{words} {offset}"),
        Title::Id(words, Held { id, epoch }) => format!(in alloc; "{words} id {id} epoch {epoch}"),
        Title::Sends(count, partition) => format!(in alloc; "sends {count} to p{partition}"),
        Title::Asks(name) => format!(in alloc; "sends {name}"),
        Title::Refuses(fault) => format!(in alloc; "refuses: {fault:?}"),
    }
}

/// What a step did.
#[derive(Clone, Copy)]
pub(crate) struct Deed {
    /// In a few words.
    pub(crate) title: Title,
    /// By which rule, if by one.
    pub(crate) rule: Option<Rule>,
    /// How it is marked.
    pub(crate) mark: Mark,
}

// A step that appended nothing, with a title that is known beforehand.
fn said(words: &'static str, rule: Option<Rule>) -> Deed {
    Deed {
        title: Title::Words(words),
        rule,
        mark: Mark::Dot,
    }
}

// A step that appended nothing, and is about what is at an offset.
fn at(words: &'static str, offset: i64, rule: Option<Rule>) -> Deed {
    Deed {
        title: Title::At(words, offset),
        rule,
        mark: Mark::Dot,
    }
}

// A step that appended nothing, and is about a producer's id and epoch.
fn with_id(words: &'static str, held: Held, rule: Option<Rule>) -> Deed {
    Deed {
        title: Title::Id(words, held),
        rule,
        mark: Mark::Dot,
    }
}

// A step that appended a batch at an offset.
fn appended(offset: i64) -> Deed {
    Deed {
        title: Title::At("append at", offset),
        rule: Some(Rule::BATCH_APPENDED),
        mark: Mark::Batch,
    }
}

// How a code is told: in which words, and by which rule.
struct Line {
    code: ErrorCode,
    words: &'static str,
    rule: Rule,
}

static BATCH: [Line; 9] = [
    Line {
        code: ErrorCode::MessageTooLarge,
        words: "batch too large",
        rule: Rule::BATCH_TOO_LARGE,
    },
    Line {
        code: ErrorCode::CorruptMessage,
        words: "corrupt batch",
        rule: Rule::BATCH_UNREADABLE,
    },
    Line {
        code: ErrorCode::UnsupportedCompressionType,
        words: "compressed",
        rule: Rule::BATCH_COMPRESSED,
    },
    Line {
        code: ErrorCode::InvalidRecord,
        words: "invalid record",
        rule: Rule::BATCH_NOT_DATA,
    },
    Line {
        code: ErrorCode::InvalidProducerEpoch,
        words: "fenced: old epoch",
        rule: Rule::BATCH_OLD_EPOCH,
    },
    Line {
        code: ErrorCode::OutOfOrderSequenceNumber,
        words: "out of order",
        rule: Rule::BATCH_OUT_OF_ORDER,
    },
    Line {
        code: ErrorCode::ConcurrentTransactions,
        words: "not yet: concurrent",
        rule: Rule::BATCH_EARLIER_OPEN,
    },
    Line {
        code: ErrorCode::InvalidTxnState,
        words: "invalid state",
        rule: Rule::BATCH_OUTSIDE,
    },
    Line {
        code: ErrorCode::KafkaStorageError,
        words: "storage error",
        rule: Rule::BATCH_CLOSED,
    },
];

static MARKER: [Line; 3] = [
    Line {
        code: ErrorCode::NoError,
        words: "marker is there",
        rule: Rule::MARKER_THERE,
    },
    Line {
        code: ErrorCode::TransactionCoordinatorFenced,
        words: "coordinator fenced",
        rule: Rule::MARKER_FENCED,
    },
    Line {
        code: ErrorCode::InvalidTxnState,
        words: "another is open",
        rule: Rule::MARKER_ANOTHER_OPEN,
    },
];

static INIT: [Line; 3] = [
    Line {
        code: ErrorCode::ConcurrentTransactions,
        words: "still preparing",
        rule: Rule::INIT_PREPARING,
    },
    Line {
        code: ErrorCode::ProducerFenced,
        words: "below the owner",
        rule: Rule::INIT_BELOW_OWNER,
    },
    Line {
        code: ErrorCode::InvalidTxnState,
        words: "not twice",
        rule: Rule::INIT_NOT_TWICE,
    },
];

static ADD: [Line; 5] = [
    Line {
        code: ErrorCode::NoError,
        words: "lists it",
        rule: Rule::ADD_LISTED,
    },
    Line {
        code: ErrorCode::InvalidProducerIdMapping,
        words: "unknown producer id",
        rule: Rule::ADD_UNKNOWN,
    },
    Line {
        code: ErrorCode::InvalidProducerEpoch,
        words: "epoch never given",
        rule: Rule::ADD_EPOCH,
    },
    Line {
        code: ErrorCode::ProducerFenced,
        words: "producer fenced",
        rule: Rule::ADD_OLD,
    },
    Line {
        code: ErrorCode::ConcurrentTransactions,
        words: "still preparing",
        rule: Rule::ADD_PREPARING,
    },
];

static END: [Line; 4] = [
    Line {
        code: ErrorCode::NoError,
        words: "ended already",
        rule: Rule::END_ENDED,
    },
    Line {
        code: ErrorCode::ProducerFenced,
        words: "producer fenced",
        rule: Rule::END_OLD,
    },
    Line {
        code: ErrorCode::ConcurrentTransactions,
        words: "still preparing",
        rule: Rule::END_PREPARING,
    },
    Line {
        code: ErrorCode::InvalidTxnState,
        words: "ended otherwise",
        rule: Rule::END_OTHER,
    },
];

// A step that answered with this code, by the line for it, or by another rule if no line has it. One
// that answered nothing took what isn't for its node.
fn answered(answer: Option<ErrorCode>, lines: &[Line], other: Option<Rule>) -> Deed {
    let Some(code) = answer else {
        return said("not for it", None);
    };
    for line in lines {
        if line.code == code {
            return said(line.words, Some(line.rule));
        }
    }
    said(word_of(code), other)
}

// What a partition answered that appended no batch.
fn batch_answered(answer: Option<ErrorCode>) -> Deed {
    answered(answer, &BATCH, None)
}

// What a partition answered that appended no marker.
fn marker_answered(answer: Option<ErrorCode>) -> Deed {
    answered(answer, &MARKER, Some(Rule::MARKER_CLOSED))
}

// What the coordinator answered that gave no id.
fn init_answered(answer: Option<ErrorCode>) -> Deed {
    answered(answer, &INIT, None)
}

// What the coordinator answered that was asked to list a partition.
fn add_answered(answer: Option<ErrorCode>) -> Deed {
    answered(answer, &ADD, None)
}

// What the coordinator answered that ended no transaction.
fn end_answered(answer: Option<ErrorCode>) -> Deed {
    answered(answer, &END, None)
}

// Where a batch is that arrived again, by the reply to it.
fn duplicate(sent: &[Message]) -> Deed {
    for message in sent {
        if let Message::ProduceReply(ProduceReply { offset, .. }) = message {
            return at("duplicate of", *offset, Some(Rule::BATCH_DUPLICATE));
        }
    }
    said("duplicate", Some(Rule::BATCH_DUPLICATE))
}

// A partition that answered nothing asks the coordinator first, or the request isn't for it.
fn unanswered(sent: &[Message]) -> Deed {
    match sent {
        [] => said("not for it", None),
        _ => said("parked, asks", Some(Rule::BATCH_UNVERIFIED)),
    }
}

// What a partition did with a batch, or with the coordinator's answer on one that is parked.
fn batch_arrived(seen: &Seen<'_>) -> Deed {
    if seen.has_appended() {
        return appended(seen.before.end);
    }
    match answer_in(seen.sent) {
        None => unanswered(seen.sent),
        Some(ErrorCode::NoError) => duplicate(seen.sent),
        answer => batch_answered(answer),
    }
}

// What a partition did with a marker.
fn marker_arrived(seen: &Seen<'_>, outcome: Outcome) -> Deed {
    if seen.has_appended() {
        return Deed {
            title: Title::Words(by_outcome(outcome, "commit marker", "abort marker")),
            rule: Some(Rule::MARKER_APPENDED),
            mark: Mark::Marker,
        };
    }
    marker_answered(answer_in(seen.sent))
}

// The id and the epoch that a reply gives.
fn given(sent: &[Message]) -> Deed {
    for message in sent {
        if let Message::InitReply(
            InitReply {
                held: Some(held),
                ..
            },
        ) = message
        {
            let rule = if held.epoch.get() == 0 {
                Rule::INIT_FIRST
            } else {
                Rule::INIT_TAKES_OVER
            };
            return with_id("gives", *held, Some(rule));
        }
    }
    said("done", None)
}

// What the coordinator did with a request for an id.
fn init_arrived(sent: &[Message]) -> Deed {
    match answer_in(sent) {
        Some(ErrorCode::NoError) => given(sent),
        Some(ErrorCode::ConcurrentTransactions) if has_marker(sent) => {
            said("fences: aborts", Some(Rule::INIT_FENCES))
        }
        answer => init_answered(answer),
    }
}

// What the coordinator did with the end of a transaction.
fn end_arrived(sent: &[Message], outcome: Outcome) -> Deed {
    match answer_in(sent) {
        Some(ErrorCode::NoError) if has_marker(sent) => {
            let words = by_outcome(outcome, "prepares commit", "prepares abort");
            said(words, Some(Rule::ENDS))
        }
        answer => end_answered(answer),
    }
}

// What a node did with a group's request, by the rule for what it takes and for what it refuses.
fn group_arrived(seen: &Seen<'_>, words: &'static str, taken: Rule, refused: Rule) -> Deed {
    match answer_in(seen.sent) {
        None => unanswered(seen.sent),
        Some(ErrorCode::NoError) => Deed {
            title: Title::Words(words),
            rule: Some(taken),
            mark: if seen.has_appended() {
                Mark::Batch
            } else {
                Mark::Dot
            },
        },
        Some(ErrorCode::IllegalGeneration) => {
            said("illegal generation", Some(Rule::OFFSETS_GENERATION))
        }
        Some(code) => said(word_of(code), Some(refused)),
    }
}

// What a client makes of a reply.
fn heard(reply: &Message) -> Deed {
    match reply {
        Message::InitReply(
            InitReply {
                code: ErrorCode::NoError,
                held: Some(held),
                ..
            },
        ) => with_id("is given", *held, None),
        Message::ProduceReply(
            ProduceReply {
                code: ErrorCode::NoError,
                offset,
                ..
            },
        ) => at("stands at", *offset, None),
        reply => match code_of(reply) {
            Some(code) => said(word_of(code), None),
            None => said("not for it", None),
        },
    }
}

// What the coordinator did with the reply to a marker.
fn settled(has_appended: bool) -> Deed {
    let words = if has_appended {
        "completes it"
    } else {
        "notes the marker"
    };
    said(words, Some(Rule::SETTLES))
}

// What a node did with a request of a group, or a client with a reply.
fn others_arrived(seen: &Seen<'_>, message: &Message) -> Deed {
    match message {
        Message::Join(_) => group_arrived(seen, "joined", Rule::JOINS, Rule::JOIN_REFUSED),
        Message::Leave(_) => group_arrived(seen, "left", Rule::LEAVES, Rule::LEAVE_REFUSED),
        Message::TxnOffsetCommit(_) => {
            group_arrived(
                seen,
                "offsets taken",
                Rule::OFFSETS_TAKEN,
                Rule::OFFSETS_NOT_MEMBER,
            )
        }
        Message::OffsetFetch(_) => {
            group_arrived(
                seen,
                "tells the offset",
                Rule::OFFSET_FETCHED,
                Rule::OFFSET_PENDING,
            )
        }
        reply => heard(reply),
    }
}

// What a node did with a message.
fn message_arrived(seen: &Seen<'_>, message: &Message) -> Deed {
    match message {
        Message::InitProducerId(_) => init_arrived(seen.sent),
        Message::EndTxn(asked) => end_arrived(seen.sent, asked.outcome),
        Message::AddPartition(_) => add_answered(answer_in(seen.sent)),
        Message::AddReply(_) if matches!(seen.sent, []) => said("nothing is parked", None),
        Message::Produce(_) | Message::AddReply(_) => batch_arrived(seen),
        Message::WriteMarker(marker) => marker_arrived(seen, marker.outcome),
        Message::MarkerReply(_) => settled(seen.has_appended()),
        Message::Fetch(_) => said("sends a page", None),
        other => others_arrived(seen, other),
    }
}

// What a client is told to do.
fn told(command: &Command) -> Deed {
    let words = match command {
        Command::Send(partition, values) => {
            return Deed {
                title: Title::Sends(values.count(), *partition),
                rule: None,
                mark: Mark::Dot,
            };
        }
        Command::Init => "asks for an id",
        Command::Begin => "begins",
        Command::Join(_) => "asks to join",
        Command::Leave => "asks to leave",
        Command::Offsets(_) => "commits offsets",
        Command::End(outcome) => by_outcome(*outcome, "commits", "aborts"),
        Command::Resend => "sends again",
        Command::Poll => "goes on",
    };
    said(words, None)
}

// What became of a batch of no producer.
fn was_put(seen: &Seen<'_>) -> Deed {
    match seen.note {
        Note::Put(Produced::Refused(code)) => batch_answered(Some(code)),
        Note::Put(_) => appended(seen.before.end),
        _ => said("not for it", None),
    }
}

// A node was opened again.
fn reopened(note: Note) -> Deed {
    let words = match note {
        Note::Closed(_) => "restart fails",
        Note::UsedUp => "epochs used up",
        _ => "restart",
    };
    Deed {
        title: Title::Words(words),
        rule: Some(Rule::RESTARTS),
        mark: Mark::Restart,
    }
}

// What a node did with an input.
fn input_taken(seen: &Seen<'_>, input: &Input) -> Deed {
    let (words, rule) = match input {
        Input::Deliver(message) => return message_arrived(seen, message),
        Input::Command(command) => return told(command),
        Input::Put(_) => return was_put(seen),
        Input::Restart(_) => return reopened(seen.note),
        Input::Expire(_) if has_marker(seen.sent) => ("expires: aborts", Rule::SETTLES),
        Input::Expire(_) => ("nothing expires", Rule::SETTLES),
        Input::Remind => ("reminds", Rule::SETTLES),
        Input::Drop(_, _) if seen.has_appended() => ("drops a member", Rule::LEAVES),
        Input::Drop(_, _) => ("no such member", Rule::LEAVE_REFUSED),
    };
    said(words, Some(rule))
}

// What a step did, whatever its store did.
fn done(seen: &Seen<'_>) -> Deed {
    if let Note::Refused(fault) = seen.note {
        return Deed {
            title: Title::Refuses(fault),
            rule: None,
            mark: Mark::Dot,
        };
    }
    match seen.took {
        Took::Message(_, message) => message_arrived(seen, message),
        Took::Input(input) => input_taken(seen, input),
        Took::Nothing => said("begins to run", None),
        Took::Outside(request) => Deed {
            title: Title::Asks(name_of(request)),
            rule: None,
            mark: Mark::Dot,
        },
    }
}

/// What a step did.
pub(crate) fn deed_of(seen: &Seen<'_>) -> Deed {
    let deed = done(seen);
    if !seen.failed || matches!(deed.mark, Mark::Restart) {
        return deed;
    }
    Deed {
        title: Title::Words("store fails"),
        rule: deed.rule,
        mark: Mark::Failure,
    }
}
