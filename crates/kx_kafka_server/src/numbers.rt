//! The numbers of clients that connections have towards the core. None is used twice, over restarts
//! of a server in the same folder neither: they are reserved in blocks, each by a byte of a file.
ghost use Rattle.std.specs.Prelude.{◌≡◌, ◌<◌, ◌+◌, MatchBool, MatchOption, true};
ghost use Rattle.kx_kafka_server.specs.Numbers.{is_within, limit, reserved};

use crate::fault::{GatewayFault, GatewayFile};
use crate::kept::Lines;
use crate::span::Span;
use kx_message::ClientId;
use std::alloc::Global;
use std::sync::{Mutex, Wait};

// The numbers that are left, and the lines that keep how many blocks are reserved.
#[derive(Drop)]
struct Free {
    alloc: Global,
    span: Span,
    lines: Lines,
}

/// The numbers of clients that are free.
#[derive(Drop)]
pub(crate) struct Numbers {
    free: Mutex<Free>,
}

impl Free {
    // Writes that this many blocks more are reserved. Says whether the device has it; not if memory
    // runs out.
    fn keep(&mut self, blocks: usize) -> bool
        ensures { self.new.span ≡ self.old.span }
    {
        let Ok(line) = vec![in self.alloc; b'\n'; blocks] else {
            return false;
        };
        self.lines.add(line.as_slice()).is_ok()
    }

    // Reserves what is missing for the next number. Says whether nothing is missing now: if the device
    // fails, or memory runs out, nothing is reserved.
    fn reserve(&mut self) -> bool
        ensures { MatchBool result (self.new.span ≡ reserved self.old.span)
            (self.new.span ≡ self.old.span) }
    {
        let missing = self.span.missing() as usize;
        if missing > 0 && !self.keep(missing) {
            return false;
        }
        self.span.reserve();
        true
    }

    // The next number, which is reserved by now. None if none is left, or the device failed.
    fn take(&mut self) -> Option<ClientId>
        ensures { MatchOption result (self.new.span.next ≡ self.old.span.next)
            (λ client. (client ≡ self.old.span.next) × (client < limit)
            × (self.new.span.next ≡ self.old.span.next + 1)
            × (is_within self.new.span.blocks client ≡ true)) }
    {
        if !self.reserve() {
            return None;
        }
        self.span.take()
    }
}

/// How many blocks of numbers the lines say are reserved, and the numbers that are left.
pub(crate) fn span_in(alloc: Global, lines: &mut Lines) -> Result<Span, GatewayFault> {
    let blocks = u32::try_from(lines.load(alloc)?.len()).unwrap_or(u32::MAX);
    Span::begin(blocks).ok_or(GatewayFault::Numbers)
}

impl Numbers {
    /// The numbers that are left, of which these lines keep how many are reserved.
    pub(crate) fn new(alloc: Global, span: Span, lines: Lines) -> Numbers {
        Numbers {
            free: Mutex::new(Free { alloc, span, lines }),
        }
    }

    /// A number that isn't in use. None if none is left, or the device failed.
    pub(crate) fn take<R: Wait>(&self, rt: &R) -> Option<ClientId> {
        self.free.lock(rt).take()
    }

    /// A number that was taken is used no more, and nobody was told of it.
    pub(crate) fn give_back<R: Wait>(&self, rt: &R, client: ClientId) {
        self.free.lock(rt).span.give_back(client);
    }
}
