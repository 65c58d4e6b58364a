//! What is read of a partition's published log.
ghost use Rattle.std.specs.Prelude.{◌≡◌, IfSome};
ghost use Rattle.kx_server.specs.Reading.{AreEndsOf, IsPageOf};

use kx_broker::{answer_fetch, page_room};
use kx_message::{Fetch, Message, PartitionId};
use kx_published::book::{Front, Naming};
use kx_published::ends::PageReader;
use std::alloc::Global;

/// Where a partition's log ends.
#[derive(Clone, Copy, Debug, PartialEq, Eq)]
pub struct LogEnds {
    /// The offset after the last record, the high watermark.
    pub end: i64,
    /// The last stable offset.
    pub lso: i64,
}

/// What was read of a published log, and the publishes up to the one that showed that log.
#[derive(Drop)]
pub struct FromLog<T: Drop, J: Naming> {
    pub value: T,
    pub seen: Front<J>,
}

impl<T: Drop, J: Naming> FromLog<T, J> {
    /// What was read.
    pub fn into_value(self) -> T
        ensures { result ≡ self.value }
    {
        let FromLog { value, .. } = self;
        value
    }
}

/// The reply with the page that is asked for, read from the published log of the reader's
/// partition. None if that isn't the one that is asked for, no log is published any more, or
/// memory runs out. The reader stays in the log.
pub fn read_page<J: Naming>(
    alloc: Global,
    reader: &mut PageReader<J>,
    fetch: &Fetch,
) -> Option<FromLog<Message, J>>
    ensures { IfSome result (λ read. IsPageOf fetch.now read.seen read.value) }
{
    if reader.partition() != fetch.partition {
        return None;
    }
    let Ok(published) = reader.enter() else {
        return None;
    };
    let page = published.page(fetch.from, page_room(fetch), fetch.committed);
    let Ok(value) = answer_fetch(alloc, fetch, page) else {
        return None;
    };
    Some(FromLog {
        value,
        seen: published.seen(),
    })
}

/// Where the published log of this partition ends. None if it isn't the reader's, or no log is
/// published any more. The reader stays in the log.
pub fn read_ends<J: Naming>(
    partition: PartitionId,
    reader: &mut PageReader<J>,
) -> Option<FromLog<LogEnds, J>>
    ensures { IfSome result (λ read. AreEndsOf partition read.seen read.value) }
{
    if reader.partition() != partition {
        return None;
    }
    let Ok(published) = reader.enter() else {
        return None;
    };
    let end = published.end();
    let Ok(page) = published.page(end, 0, false) else {
        return None;
    };
    Some(FromLog {
        value: LogEnds {
            end,
            lso: page.last_stable_offset(),
        },
        seen: published.seen(),
    })
}
