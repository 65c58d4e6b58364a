//! Replies to requests, and to those that were parked.
ghost use Rattle.std.specs.Prelude.{◌≡◌, ◌≤◌, ◌-◌, [], length, map, negsuc, vec_capacity};
ghost use Rattle.kx_broker.specs.Serving.{offset_of};
ghost use Rattle.kx_model.specs.Verification.{passed_on, reply_to};

use kx_message::{ErrorCode, Message, OffsetsReply, ProduceReply};
use kx_partition::Produced;
use kx_verify::{Append, Request};

/// The offset of an answer, -1 if there is none.
pub(crate) fn offset_of(answer: Produced) -> i64
    ensures { result ≡ offset_of answer }
{
    match answer {
        Produced::Appended(offset) | Produced::Duplicate(offset) => offset,
        Produced::Unverified | Produced::Refused(_) => -1,
    }
}

/// The reply to a request, with a code and the offset of its batch.
pub(crate) fn reply_to(request: &Request, code: ErrorCode, offset: i64) -> Message
    ensures { result ≡ reply_to request.now.request code offset }
{
    match request.message() {
        Append::Produce(it) => Message::ProduceReply(ProduceReply {
            caller: it.caller,
            partition: it.partition,
            code,
            offset,
        }),
        Append::Offsets(it) => Message::OffsetsReply(OffsetsReply {
            caller: it.caller,
            code,
        }),
    }
}

/// What parked requests are answered in place of the coordinator's code.
pub(crate) fn passed_on(code: ErrorCode) -> ErrorCode
    ensures { result ≡ passed_on code }
{
    if code == ErrorCode::ProducerFenced {
        ErrorCode::InvalidProducerEpoch
    } else {
        code
    }
}

/// The replies to parked requests of which the coordinator doesn't list the partition. There is
/// room for them.
pub(crate) fn pass_on(room: Vec<Message>, requests: &[Request], code: ErrorCode) -> Vec<Message>
    requires space { length requests.now ≤ vec_capacity room }
    requires empty { room.items ≡ [] }
    ensures { result.items ≡ map (λ p. reply_to p.request (passed_on code) (negsuc 0))
        requests.now }
{
    let mut replies = room;
    let code = passed_on(code);
    for request in requests {
        replies.push_reserved(reply_to(request, code, -1));
    }
    replies
}
