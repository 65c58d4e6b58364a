//! InitProducerId: producers that ask for an id and an epoch.
ghost use Rattle.std.specs.Prelude.{◌≡◌, pos, negsuc, IfOk, option_map};
ghost use Rattle.kx_kafka.specs.Frames.{frame_text, response_text};
ghost use Rattle.kx_kafka.specs.Layouts.{init_producer_id_response};
ghost use Rattle.kx_message.specs.Values.{optional_held_with, timeout_with};
ghost use Rattle.kx_gateway.specs.Init.{init_ask, init_values, refused_init, timeout_of};

use crate::code::GatewayCode;
use crate::ids::{held_of, txn_of};
use kx_kafka::{
    InitProducerIdRequest, InitProducerIdResponse, KafkaFault, RequestHeader, response_frame,
};
use kx_message::{Caller, Held, InitProducerId, InitReply, Timeout, TxnId};
use std::alloc::Global;

/// What becomes of a producer's request for an id.
#[derive(Clone, Copy)]
pub enum InitAsk {
    /// It is refused with this code, and the core isn't asked.
    Refused(i16),
    /// The core is asked for an id.
    Ask(InitProducerId),
    /// The grant of the transactional id decides.
    Transactional {
        /// The transactional id.
        txn: TxnId,
        /// How long a transaction may stay open.
        timeout: Timeout,
        /// The id and the epoch that the producer says it has, if any.
        held: Option<Held>,
    },
}

// The timeout of a producer without a transactional id, in milliseconds. It has no transaction, so
// none ends by it; clients send -1, 0 and 2^31 - 1.
fn any_timeout() -> Timeout
    ensures { result ≡ 60000 }
{
    match Timeout::try_from(60_000) {
        Ok(timeout) => timeout,
        Err(_) => unreachable!(),
    }
}

fn timeout_with(millis: u32) -> Option<Timeout>
    ensures { result ≡ timeout_with millis }
{
    Timeout::try_from(millis).ok()
}

// The timeout of a producer with a transactional id, if it is one of the core's.
fn timeout_of(millis: i32) -> Option<Timeout>
    ensures { result ≡ timeout_of millis }
{
    if millis < 0 {
        None
    } else {
        timeout_with(millis as u32)
    }
}

// The id and the epoch that a producer says it has, or none if both are -1.
fn optional_held(id: i64, epoch: i16) -> Option<Option<Held>>
    ensures { result ≡ optional_held_with id epoch }
{
    if id == -1 && epoch == -1 {
        return Some(None);
    }
    let held = held_of(id, epoch)?;
    Some(Some(held))
}

/// What becomes of a producer's request for an id. The core is asked for one without a
/// transactional id, with a timeout of 60,000 milliseconds whatever the client asked. With a
/// transactional id it is the first that fits: refused with code 53 for an id that the core can't
/// hold; with 50 for a timeout other than 1 to 900,000 milliseconds; with 42 if the producer's
/// id and epoch are neither both -1 nor both 0 or more; else the grant decides.
pub fn ask_init(caller: Caller, request: &InitProducerIdRequest<'_>) -> InitAsk
    ensures { result ≡ init_ask caller (option_map (λ s. s.now) request.now.transactional_id)
        request.now.transaction_timeout_ms request.now.producer_id request.now.producer_epoch }
{
    let Some(id) = request.transactional_id else {
        return InitAsk::Ask(InitProducerId {
            caller,
            txn: None,
            timeout: any_timeout(),
        });
    };
    let Some(txn) = txn_of(id) else {
        return InitAsk::Refused(GatewayCode::TransactionalIdAuthorizationFailed.number());
    };
    let Some(timeout) = timeout_of(request.transaction_timeout_ms) else {
        return InitAsk::Refused(GatewayCode::InvalidTransactionTimeout.number());
    };
    let Some(held) = optional_held(request.producer_id, request.producer_epoch) else {
        return InitAsk::Refused(GatewayCode::InvalidRequest.number());
    };
    InitAsk::Transactional { txn, timeout, held }
}

/// The frame of the response that the core's reply makes.
///
/// # Errors
///
/// Only [`KafkaFault::Memory`].
pub fn init_frame(
    alloc: Global,
    header: &RequestHeader<'_>,
    reply: &InitReply,
) -> Result<Vec<u8>, KafkaFault>
    ensures { IfOk result (λ frame. frame.items ≡ frame_text (response_text header.now.version
        header.now.correlation_id init_producer_id_response (init_values reply.now))) }
{
    let (producer_id, producer_epoch) = match reply.held {
        Some(held) => (held.id.get(), held.epoch.get()),
        None => (-1, -1),
    };
    let response = InitProducerIdResponse {
        throttle_time_ms: 0,
        error_code: reply.code.number(),
        producer_id,
        producer_epoch,
    };
    response_frame(alloc, header.version, header.correlation_id, &response)
}

/// The frame of the response to a request that was refused with this code.
///
/// # Errors
///
/// Only [`KafkaFault::Memory`].
pub fn refused_init_frame(
    alloc: Global,
    header: &RequestHeader<'_>,
    code: i16,
) -> Result<Vec<u8>, KafkaFault>
    ensures { IfOk result (λ frame. frame.items ≡ frame_text (response_text header.now.version
        header.now.correlation_id init_producer_id_response (refused_init code))) }
{
    let response = InitProducerIdResponse {
        throttle_time_ms: 0,
        error_code: code,
        producer_id: -1,
        producer_epoch: -1,
    };
    response_frame(alloc, header.version, header.correlation_id, &response)
}
