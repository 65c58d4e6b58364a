//! The coordinator's answers on requests that are parked.
ghost use Rattle.std.specs.Prelude.{◌≡◌, ◌≢◌, ◌≤◌, ℕ, [], All, IfOk, IsErr, OnErr, length};
ghost use Rattle.std.specs.Prelude.{◌<◌, vec_capacity};
ghost use Rattle.kx_broker.specs.Memory.{MayLack};
ghost use Rattle.kx_broker.specs.Serving.{GoesTo, IsServed, RunAgain, Serves, Waits};
ghost use Rattle.kx_group.specs.Calls.{verdict_again};
ghost use Rattle.kx_message.specs.declared.code.ErrorCode.TheVariants.{NoError};
ghost use Rattle.kx_message.specs.declared.message.Held as pair;
ghost use Rattle.kx_message.specs.declared.message.Message.TheVariants as msg;
ghost use Rattle.kx_model.specs.Log.{entries};
ghost use Rattle.kx_model.specs.PartitionNode as node;
ghost use Rattle.kx_model.specs.PartitionNode.{data_takes, on_add_reply};
ghost use Rattle.kx_model.specs.Produce.{Next};
ghost use Rattle.kx_model.specs.Verification.{parked_for};
ghost use Rattle.kx_partition.specs.Answer.{FollowsVerdict};

use crate::machine::PartitionMachine;
use crate::reply::{offset_of, pass_on, reply_to};
use kx_log::Store;
use kx_machine::Messages;
use kx_message::{AddReply, ErrorCode, Held, Message};
use kx_partition::{Partition, Produced};
use kx_verify::{Append, Request};
use std::alloc::AllocError;

// Runs a parked batch again, whose transaction is verified.
fn run_again<S: Store>(
    partition: &mut Partition<S>,
    request: &Request,
) -> Result<Produced, AllocError>
    ensures answer { (number : ℕ) → GoesTo number request.now.request
        → IfOk result (FollowsVerdict (verdict_again partition.old request.now)
        request.now.request.text partition.old partition.new) }
    ensures err { OnErr result (partition.new ≡ partition.old) }
    ensures refusals { (number : ℕ) → GoesTo number request.now.request
        → IsErr result → verdict_again partition.old request.now ≡ Next }
{
    match request.message() {
        Append::Produce(it) => partition.produce(it.batch.as_slice(), true),
        Append::Offsets(_) => Ok(Produced::Unverified),
    }
}

// Runs these parked batches of an id and epoch again, each in turn, of which at most one is
// appended. There is room for the replies.
fn resume<S: Store>(
    partition: &mut Partition<S>,
    requests: &[Request],
    room: Vec<Message>,
) -> Result<Vec<Message>, AllocError>
    requires space { length requests.now ≤ vec_capacity room }
    requires empty { room.items ≡ [] }
    ensures ok { (number : ℕ) (held : pair.Held)
        → All (Waits (GoesTo number) (entries partition.old.batches) held) requests.now
        → IfOk result (λ replies.
        RunAgain requests.now partition.old partition.new replies.items) }
    ensures err { (number : ℕ) (held : pair.Held)
        → All (Waits (GoesTo number) (entries partition.old.batches) held) requests.now
        → OnErr result (partition.new ≡ partition.old) }
    ensures memory { IsErr result → 0 < length requests.now }
{
    let mut replies = room;
    for request in requests {
        let answer = run_again(partition, request)?;
        replies.push_reserved(reply_to(request, answer.code(), offset_of(answer)));
    }
    Ok(replies)
}

impl<S: Store> PartitionMachine<S> {
    // Those of an id and epoch that are parked run again.
    fn run_parked(&mut self, held: &Held) -> Result<Messages, AllocError>
        ensures ok { (number : ℕ) (p : node.Partition) → IsServed number p self.old
            → IfOk result (Serves (IsServed number) p self.old self.new
            (λ store. on_add_reply number p store held.now NoError)) }
        ensures err { (number : ℕ) (p : node.Partition) → IsServed number p self.old
            → OnErr result (self.new ≡ self.old) }
        ensures memory { IsErr result → 0 < length (parked_for self.old.parked held.now) }
    {
        // Each batch is in its place.
        let _end = self.partition.end();
        let requests = self.guard.parked(*held);
        let room = Vec::with_capacity(self.alloc, requests.len())?;
        let replies = resume(&mut self.partition, requests, room)?;
        let _answered = self.guard.reply(*held);
        Ok(Messages::from_vec(replies))
    }

    // Those of an id and epoch that are parked are answered the coordinator's code.
    fn refuse_parked(&mut self, held: &Held, code: ErrorCode) -> Result<Messages, AllocError>
        requires { code ≢ NoError }
        ensures ok { (number : ℕ) (p : node.Partition) → IsServed number p self.old
            → IfOk result (Serves (IsServed number) p self.old self.new
            (λ store. on_add_reply number p store held.now code)) }
        ensures err { OnErr result (self.new ≡ self.old) }
        ensures memory { IsErr result → 0 < length (parked_for self.old.parked held.now) }
    {
        let requests = self.guard.parked(*held);
        let room = Vec::with_capacity(self.alloc, requests.len())?;
        let replies = pass_on(room, requests, code);
        let _refused = self.guard.reply(*held);
        Ok(Messages::from_vec(replies))
    }

    /// The coordinator has answered on the requests of an id and epoch that are parked here: they
    /// run again, or are answered its code. Room for the replies is asked for first.
    ///
    /// # Errors
    ///
    /// Out of memory, only if some are parked; then all is as before.
    pub(crate) fn add_reply(&mut self, it: &AddReply) -> Result<Messages, AllocError>
        ensures ok { (number : ℕ) (p : node.Partition) → IsServed number p self.old
            → IfOk result (Serves (IsServed number) p self.old self.new
            (λ store. data_takes number p store (msg.AddReply it.now))) }
        ensures err { (number : ℕ) (p : node.Partition) → IsServed number p self.old
            → OnErr result (self.new ≡ self.old) }
        ensures memory { IsErr result → MayLack self.old (msg.AddReply it.now) }
    {
        if it.partition != self.number() {
            return Ok(Messages::none(self.alloc));
        }
        if it.code == ErrorCode::NoError {
            self.run_parked(&it.held)
        } else {
            self.refuse_parked(&it.held, it.code)
        }
    }
}
