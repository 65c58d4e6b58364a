//! What a thread sees of a log that grows meanwhile.
use kx_cases::StepFault;
use kx_published::book::Naming;
use kx_published::ends::{PageReader, Published};
use std::sync::atomic::{AtomicBool, Ordering};
use std::thread;

/// How a thread looks.
#[derive(Clone, Copy, PartialEq, Eq)]
pub(crate) enum Pace {
    /// By pages of whole logs, and lets other threads go on after each.
    Whole,
    /// By pages of 64 KiB, one at once after the other.
    Fast,
}

/// What was wrong at a look.
#[derive(Clone, Copy, Debug)]
pub(crate) enum Wrong {
    /// The number of the publish fell.
    Number,
    /// The log's end fell.
    End,
    /// The page from 0 didn't end where the log does.
    Page,
    /// There was no log.
    Gone,
}

/// How many pages a thread took, which publish and which end of the log it saw last, and what was
/// wrong first.
#[derive(Clone, Copy)]
pub(crate) struct Seen {
    pub(crate) pages: u64,
    pub(crate) number: u64,
    pub(crate) end: i64,
    pub(crate) wrong: Option<Wrong>,
}

/// One look at a log: the number of the publish, the log's end, and where a page from 0 ends.
#[derive(Clone, Copy)]
pub(crate) struct Look {
    pub(crate) number: u64,
    pub(crate) end: i64,
    pub(crate) page: Option<i64>,
}

/// Where a thread takes its pages from.
pub(crate) trait Source: Drop {
    /// Looks at the log as it is now, if there is one, with a page of at most `max` bytes.
    fn look(&mut self, max: u32) -> Option<Look>;
}

impl Pace {
    /// How many bytes of batches a page has at most.
    pub(crate) fn max(self) -> u32 {
        match self {
            Pace::Whole => u32::MAX,
            Pace::Fast => 65_536,
        }
    }
}

// Looks at a published log.
fn look_at(published: &Published<'_>, max: u32) -> Look {
    let page = match published.page(0, max, true) {
        Ok(page) => Some(page.next()),
        Err(_) => None,
    };
    Look {
        number: published.number(),
        end: published.end(),
        page,
    }
}

/// A reader enters the log that is published last, and leaves it.
impl<J: Naming> Source for PageReader<J> {
    fn look(&mut self, max: u32) -> Option<Look> {
        let look = match self.enter() {
            Ok(published) => Some(look_at(&published, max)),
            Err(_) => None,
        };
        self.leave();
        look
    }
}

impl Seen {
    /// A table in which nothing was seen.
    pub(crate) fn none() -> Seen {
        Seen {
            pages: 0,
            number: 0,
            end: 0,
            wrong: None,
        }
    }

    // What is wrong with a look that comes next. A page of a whole log ends where the log does, and
    // none ends after it.
    fn judge(&self, look: Look, pace: Pace) -> Option<Wrong> {
        if look.number < self.number {
            return Some(Wrong::Number);
        }
        if look.end < self.end {
            return Some(Wrong::End);
        }
        match look.page {
            Some(next) if next == look.end => None,
            Some(next) if next < look.end && pace == Pace::Fast => None,
            _ => Some(Wrong::Page),
        }
    }

    // Notes a look.
    fn note(&mut self, look: Option<Look>, pace: Pace) {
        let found = match look {
            Some(look) => self.judge(look, pace),
            None => Some(Wrong::Gone),
        };
        if self.wrong.is_none() {
            self.wrong = found;
        }
        if let Some(look) = look {
            self.pages = self.pages.saturating_add(1);
            self.number = look.number;
            self.end = look.end;
        }
    }
}

/// Looks again and again until it is over, and then once more.
pub(crate) fn watch<S: Source>(mut source: S, over: &AtomicBool, pace: Pace) -> Seen {
    let mut seen = Seen::none();
    for _ in 0..u64::MAX {
        let is_last = over.load(Ordering::SeqCst);
        let look = source.look(pace.max());
        seen.note(look, pace);
        if is_last {
            break;
        }
        if pace == Pace::Whole {
            thread::yield_now();
        }
    }
    seen
}

/// Reports whether each thread saw a log that grew up to the publish of this number.
pub(crate) fn tell_race(told: &mut String, seen: &[Seen], last: u64) -> Result<(), StepFault> {
    for one in seen {
        if let Some(wrong) = one.wrong {
            return Ok(writeln!(told, "wrong {wrong:?}")?);
        }
        if one.number != last {
            return Ok(writeln!(told, "saw {} of {last}", one.number)?);
        }
    }
    Ok(writeln!(told, "{} readers saw growing logs", seen.len())?)
}

/// Reports how many pages were taken in all, if nothing was wrong.
pub(crate) fn tell_pages(told: &mut String, seen: &[Seen]) -> Result<(), StepFault> {
    let mut pages: u64 = 0;
    for one in seen {
        if let Some(wrong) = one.wrong {
            return Ok(writeln!(told, "wrong {wrong:?}")?);
        }
        pages = pages.saturating_add(one.pages);
    }
    Ok(writeln!(told, "{} readers took {pages} pages", seen.len())?)
}
