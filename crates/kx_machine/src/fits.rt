//! What a node is handed, and what a client is made of, hold numbers, names and bytes within their
//! ranges, as their types see to. What is here changes nothing when it runs.
ghost use Rattle.std.specs.Prelude.{All, ◌∷◌, ◌<◌, ◌^◌};
ghost use Rattle.std.specs.Int.{w64};
ghost use Rattle.std.specs.Int.RustNames.{FitsSigned};
ghost use Rattle.kx_machine.specs.Meaning.{command_of, input_of};
ghost use Rattle.kx_message.specs.Message.{IsOffset, IsU32};
ghost use Rattle.kx_model.specs.World as model;
ghost use Rattle.kx_varint.specs.Text.{IsBytes};

use crate::input::{Command, Input};
use kx_client::Values;
use kx_message::{Bytes, ClientId, PartitionOffset, Timeout, TxnId};

fn bytes_fit(bytes: &[u8])
    ensures { IsBytes bytes.now }
{}

fn moment_fits(now: u64)
    ensures { now < 2 ^ 64 }
{}

fn number_fits(number: u32)
    ensures { IsU32 number }
{}

fn client_fits(client: ClientId)
    ensures { IsU32 client }
{
    number_fits(client.get());
}

fn list_fits(values: &[Bytes])
    ensures { All IsBytes values.now }
{
    for value in values {
        bytes_fit(value.as_slice());
    }
}

fn offset_fits(offset: i64)
    ensures { FitsSigned w64 offset }
{}

fn committed_fits(committed: PartitionOffset)
    ensures { IsOffset committed }
{
    // The call ensures that the number is in its range.
    let _partition = committed.partition.get();
    offset_fits(committed.offset);
}

fn offsets_fit(offsets: &[PartitionOffset])
    ensures { All IsOffset offsets.now }
{
    for committed in offsets {
        committed_fits(*committed);
    }
}

fn values_fit(values: &Values)
    ensures { All IsBytes (values.now.first ∷ values.now.more) }
{
    bytes_fit(values.first.as_slice());
    list_fits(values.more.as_slice());
}

fn command_fits(command: &Command)
    ensures { model.IsCommand (command_of command.now) }
{
    match command {
        Command::Send(partition, values) => {
            // The call ensures that the number is in its range.
            let _partition = partition.get();
            values_fit(values);
        }
        Command::Join(group) => {
            // The call ensures that the bytes are a name.
            let _group = group.as_bytes();
        }
        Command::Offsets(offsets) => offsets_fit(offsets.as_slice()),
        Command::Init
        | Command::Begin
        | Command::Leave
        | Command::End(_)
        | Command::Resend
        | Command::Poll => {}
    }
}

/// Whatever a node is handed is an input of the definitions' schedules. This does nothing when it
/// runs.
pub fn input_fits(input: &Input)
    ensures { model.IsInput (input_of input.now) }
{
    match input {
        Input::Command(command) => command_fits(command),
        Input::Drop(group, member) => {
            // The call ensures that the bytes are a name.
            let _group = group.as_bytes();
            client_fits(*member);
        }
        Input::Put(values) => values_fit(values),
        Input::Expire(now) | Input::Restart(now) => moment_fits(*now),
        Input::Deliver(_) | Input::Remind => {}
    }
}

/// Whatever a client is made of, its making is an event of the definitions' schedules. This does
/// nothing when it runs.
pub fn client_making_fits(client: ClientId, txn: Option<TxnId>, timeout: Timeout)
    ensures { model.IsEvent (model.Make client txn timeout) }
{
    client_fits(client);
    // The call ensures that the timeout is in its range.
    let _timeout = timeout.get();
    if let Some(txn) = txn {
        // The call ensures that the bytes are a name.
        let _txn = txn.as_bytes();
    }
}
