//! A trace that is read.
ghost use Rattle.std.specs.Prelude.{◌≡◌, ◌≤◌, OnErr, OnOk, drop, length};

use crate::ending::Ending;
use crate::servers::{TraceOf, node_name};
use kx_message::NodeId;
use kx_trace::TracedNode;
use std::alloc::{AllocError, Global};
use std::marker::Model;

/// A node's trace, as far as it was read: the bytes that were fed, of which the first `done` are
/// done with, how many items those told, whether the bytes are all, and how many bytes of whole
/// entries the node's log has at their end, if that is known.
#[derive(Drop)]
pub(crate) struct Reading {
    node: TracedNode,
    log_len: Option<u64>,
    bytes: Vec<u8>,
    done: usize,
    items: u64,
    is_end: bool,
}

impl Model for Reading {
    ghost use Rattle.std.specs.Prelude.{◌≤◌, drop, length};
    ghost use Rattle.kx_trace_audit.specs.Readings.{Reading};

    ghost Value = { Reading };

    ghost view = { λ r. record {
      node = r.node;
      log_len = r.log_len;
      unread = drop r.done r.bytes.items;
      items = r.items;
      is_end = r.is_end;
    } };

    ghost invariant = { λ r. r.done ≤ length r.bytes.items };
}

// Takes the first bytes out, so that those after them are left.
fn drop_front(bytes: &mut Vec<u8>, count: usize)
    requires { count ≤ length bytes.old.items }
    ensures { bytes.new.items ≡ drop count bytes.old.items }
{
    let left = bytes.len() - count;
    bytes.copy_within(count.., 0);
    bytes.truncate(left);
}

impl Reading {
    ghost use Rattle.kx_trace_audit.specs.Readings.{advanced, begun, ending_of, fed_on};
    ghost use Rattle.kx_trace_audit.specs.Servers.{name_of};

    /// A trace of which nothing was read after its head.
    pub(crate) fn new(alloc: Global, of: &TraceOf) -> Reading
        ensures { result ≡ begun of.now }
    {
        Reading {
            node: of.node,
            log_len: of.log_len,
            bytes: Vec::new(alloc),
            done: 0,
            items: 0,
            is_end: false,
        }
    }

    /// The name in messages of the node that the trace is of.
    pub(crate) fn name(&self) -> NodeId
        ensures { result ≡ name_of self.now.node }
    {
        node_name(self.node)
    }

    /// Where the trace ends, as far as that is known.
    pub(crate) fn ending(&self) -> Ending
        ensures { result ≡ ending_of self.now }
    {
        if self.is_end {
            Ending::At {
                log_len: self.log_len,
            }
        } else {
            Ending::Unknown
        }
    }

    /// The bytes that are not done with.
    pub(crate) fn unread(&self) -> &[u8]
        ensures { result.now ≡ self.now.unread }
    {
        &self.bytes[self.done..]
    }

    /// More bytes of the trace; no bytes where it has no more.
    ///
    /// # Errors
    ///
    /// Only if memory runs out; then the trace is as before.
    pub(crate) fn feed(&mut self, bytes: &[u8]) -> Result<(), AllocError>
        ensures ok { OnOk result (self.new ≡ fed_on bytes.now self.old) }
        ensures err { OnErr result (self.new ≡ self.old) }
    {
        drop_front(&mut self.bytes, self.done);
        self.done = 0;
        self.bytes.extend_from_slice(bytes)?;
        if bytes.is_empty() {
            self.is_end = true;
        }
        Ok(())
    }

    /// How many items are done with, at most 2^64 - 1.
    pub(crate) fn items(&self) -> u64
        ensures { result ≡ self.now.items }
    {
        self.items
    }

    /// Goes on after an item that is `used` bytes long: the item counts, and its bytes were read.
    pub(crate) fn advance(&mut self, used: usize)
        requires { used ≤ length self.old.unread }
        ensures { self.new ≡ advanced used self.old }
    {
        self.done += used;
        self.items = self.items.saturating_add(1);
    }
}
