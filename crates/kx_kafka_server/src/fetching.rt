//! Fetch: pages of the published logs, and waiting for records.
use crate::answering::{Answer, Asked, Session};
use crate::closed::Closed;
use crate::replies::fetch_reply;
use crate::untaken::UNTAKEN;
use kx_gateway::{
    FetchAsk, FetchBudget, aborted_of, ask_fetch, fetch_frame, fetched, refused_fetch,
};
use kx_kafka::{FetchPartition, FetchRequest, Request, read_request};
use kx_message::{AbortedTxns, Bytes, ErrorCode, Fetch, FetchReply, Message, PartitionId};
use kx_published::book::Naming;
use kx_publishing::Readable;
use std::alloc::Global;
use std::sync::{Arc, Wait};
use std::time::{Clock, Duration, Instant};

// What was read of a partition.
#[derive(Drop)]
enum Read {
    // nothing, for this reason
    Refused {
        index: i32,
        code: i16,
    },
    // a page, and whether its records are sent
    Page {
        index: i32,
        committed: bool,
        reply: FetchReply,
        sends: bool,
    },
}

// What was read of all partitions that were asked for.
#[derive(Drop)]
struct Pages {
    reads: Vec<Read>,
    // how many bytes of records are sent
    bytes: usize,
    // whether the response is sent at once, since something was refused
    is_final: bool,
}

// The fields of a Fetch that say how long to wait.
#[derive(Clone, Copy)]
struct Patience {
    min_bytes: usize,
    max_wait: Duration,
}

// A number that isn't below 0.
fn at_least_zero(number: i32) -> u32 {
    match u32::try_from(number) {
        Ok(number) => number,
        Err(_) => 0,
    }
}

impl Patience {
    fn of(request: &FetchRequest<'_>) -> Patience {
        Patience {
            min_bytes: at_least_zero(request.min_bytes) as usize,
            max_wait: Duration::from_millis(u64::from(at_least_zero(request.max_wait_ms))),
        }
    }

    // How much longer to wait, after this long. None if the time is over.
    fn left(self, passed: Duration) -> Option<Duration> {
        let left = self.max_wait.checked_sub(passed)?;
        if left.is_zero() { None } else { Some(left) }
    }
}

// The request, read once more: that takes no memory.
fn fetch_in<'a>(text: &'a [u8]) -> Result<FetchRequest<'a>, Closed> {
    match read_request(text) {
        Ok((_, Request::Fetch(request))) => Ok(request),
        _ => Err(Closed),
    }
}

impl Pages {
    // Takes in what was read of a partition.
    fn add(&mut self, read: Read) -> Result<(), Closed> {
        match &read {
            Read::Refused { .. } => self.is_final = true,
            Read::Page { reply, sends, .. } => {
                if reply.code != ErrorCode::NoError {
                    self.is_final = true;
                }
                if *sends {
                    let len = reply.batches.as_slice().len();
                    self.bytes = self.bytes.saturating_add(len);
                }
            }
        }
        self.reads.push(read)?;
        Ok(())
    }
}

// A page whose records aren't sent: nothing of them is kept.
fn without_records(alloc: Global, reply: FetchReply) -> FetchReply {
    FetchReply {
        aborted: AbortedTxns::from_vec(Vec::new(alloc)),
        batches: Bytes::from_vec(Vec::new(alloc)),
        ..reply
    }
}

// A page as it is answered: with its records, or without them.
fn sent(alloc: Global, reply: FetchReply, sends: bool) -> FetchReply {
    if sends {
        reply
    } else {
        without_records(alloc, reply)
    }
}

// Says whether a partition is named for the first time, and notes that it was named.
fn note_first(seen: &mut Vec<PartitionId>, partition: PartitionId) -> Result<bool, Closed> {
    if seen.contains(&partition) {
        return Ok(false);
    }
    seen.push(partition)?;
    Ok(true)
}

impl<'a, L: Readable, J: Naming, R: Wait + Clock + Drop> Session<'a, L, J, R> {
    // The page that is asked for: of the published log, or by a step of the node.
    fn page(&self, fetch: Fetch) -> Result<FetchReply, Closed> {
        let reply = match self.hub.page(self.rt, &fetch) {
            Some(page) => page.into_value(),
            None => self.ask(Message::Fetch(fetch))?,
        };
        fetch_reply(reply)
    }

    // A page without records: where the log ends, for a response that has no room for more.
    fn empty_page(&self, fetch: Fetch) -> Result<FetchReply, Closed> {
        let ends = self.ends(fetch.partition)?;
        Ok(FetchReply {
            caller: fetch.caller,
            partition: fetch.partition,
            code: ErrorCode::NoError,
            next: fetch.from,
            lso: ends.lso,
            end: ends.end,
            aborted: AbortedTxns::from_vec(Vec::new(self.alloc)),
            batches: Bytes::from_vec(Vec::new(self.alloc)),
        })
    }

    // A page of a partition, or, if its log isn't read, where that ends.
    fn page_or_end(&self, fetch: Fetch, is_read: bool) -> Result<FetchReply, Closed> {
        if is_read {
            self.page(fetch)
        } else {
            self.empty_page(fetch)
        }
    }

    // Reads a partition, of whose log no page is read if the request named it before, or its response
    // has no room for more.
    fn read_one(
        &self,
        fetch: Fetch,
        asked: &FetchPartition<'_>,
        budget: &mut FetchBudget,
        is_first: bool,
    ) -> Read {
        let (index, committed) = (asked.partition, fetch.committed);
        let is_read = is_first && budget.has_room(asked.partition_max_bytes);
        let Ok(reply) = self.page_or_end(fetch, is_read) else {
            return Read::Refused {
                index,
                code: UNTAKEN.number(),
            };
        };
        let sends = budget.take(asked.partition_max_bytes, reply.batches.as_slice().len());
        Read::Page {
            index,
            committed,
            reply: sent(self.alloc, reply, sends),
            sends,
        }
    }

    // Reads each partition that is asked for, each once.
    fn read_pages(&self, request: FetchRequest<'_>) -> Result<Pages, Closed> {
        let mut pages = Pages {
            reads: Vec::new(self.alloc),
            bytes: 0,
            is_final: false,
        };
        let mut budget = FetchBudget::of(request.max_bytes);
        let mut seen = Vec::new(self.alloc);
        let level = request.isolation_level;
        for topic in request.topics {
            for asked in topic.partitions {
                let step = ask_fetch(
                    &self.link.shared.table.lock(self.rt).topics,
                    self.reader(),
                    level,
                    topic.topic,
                    &asked,
                    &budget,
                );
                let read = match step {
                    FetchAsk::Refused(code) => Read::Refused {
                        index: asked.partition,
                        code,
                    },
                    FetchAsk::Read(fetch) => {
                        let is_first = note_first(&mut seen, fetch.partition)?;
                        self.read_one(fetch, &asked, &mut budget, is_first)
                    }
                };
                pages.add(read)?;
            }
        }
        Ok(pages)
    }

    // The partitions that are asked for and are there, each once.
    fn partitions(&self, request: FetchRequest<'_>) -> Result<Vec<PartitionId>, Closed> {
        let mut partitions = Vec::new(self.alloc);
        for topic in request.topics {
            let name = topic.topic;
            for asked in topic.partitions {
                let index = asked.partition;
                if let Some(partition) = self.partition(name, index) {
                    if !partitions.contains(&partition) {
                        partitions.push(partition)?;
                    }
                }
            }
        }
        Ok(partitions)
    }

    // The next append to a partition wakes this thread.
    fn watch(&self, partition: PartitionId) -> Result<(), Closed> {
        let waker = Arc::try_clone(&self.link.waker)?;
        self.hub.watch(self.rt, partition, waker)?;
        Ok(())
    }

    // Reads again, each time after something was appended to one of the partitions, until enough is
    // there, the time is over, or the other end has closed.
    fn wait_for(
        &self,
        text: &[u8],
        partitions: &[PartitionId],
        patience: Patience,
    ) -> Result<Pages, Closed> {
        let Ok(begun) = Instant::now(self.rt) else {
            return self.read_pages(fetch_in(text)?);
        };
        for _ in self.rt.forever() {
            self.link.waker.reset(self.rt);
            for partition in partitions {
                self.watch(*partition)?;
            }
            let pages = self.read_pages(fetch_in(text)?)?;
            if pages.is_final
                || pages.bytes >= patience.min_bytes
                || !self.link.inbox.is_open(self.rt)
            {
                return Ok(pages);
            }
            let Ok(passed) = begun.elapsed(self.rt) else {
                return Ok(pages);
            };
            let Some(left) = patience.left(passed) else {
                return Ok(pages);
            };
            self.link.waker.wait(self.rt, left);
            for partition in partitions {
                self.hub.unwatch(self.rt, *partition, &self.link.peer);
            }
        }
        Err(Closed)
    }

    // What is answered to a Fetch that waits as long as it has patience.
    fn pages(&self, text: &[u8]) -> Result<Pages, Closed> {
        let patience = Patience::of(&fetch_in(text)?);
        let pages = self.read_pages(fetch_in(text)?)?;
        if pages.is_final || pages.bytes >= patience.min_bytes || patience.max_wait.is_zero() {
            return Ok(pages);
        }
        let partitions = self.partitions(fetch_in(text)?)?;
        let pages = self.wait_for(text, partitions.as_slice(), patience);
        for partition in partitions.iter() {
            self.hub.unwatch(self.rt, *partition, &self.link.peer);
        }
        pages
    }

    /// The response to Fetch. If fewer bytes are there than it asks for, it waits for them as
    /// long as it says.
    pub(crate) fn fetch(&self, asked: &Asked<'_>) -> Result<Answer, Closed> {
        let pages = self.pages(asked.text)?;
        let mut aborted = Vec::new(self.alloc);
        for read in pages.reads.iter() {
            aborted.push(match read {
                Read::Refused { .. } => Vec::new(self.alloc),
                Read::Page { reply, .. } => aborted_of(self.alloc, reply)?,
            })?;
        }
        let mut answers = Vec::new(self.alloc);
        for (read, list) in pages.reads.iter().zip(aborted.iter()) {
            answers.push(match read {
                Read::Refused { index, code } => refused_fetch(*index, *code),
                Read::Page {
                    index,
                    committed,
                    reply,
                    sends,
                } => fetched(*index, *committed, reply, list.as_slice(), *sends),
            })?;
        }
        let request = fetch_in(asked.text)?;
        let frame = fetch_frame(self.alloc, &asked.header, request, answers.as_slice())?;
        Ok(Answer::Frame(frame))
    }
}
