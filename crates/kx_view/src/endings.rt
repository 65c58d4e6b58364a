//! What became of what steps appended to logs.
use crate::seen::Seen;
use kx_page::Fate;
use std::alloc::{AllocError, Global};
use std::collections::HashMap;

/// What became of what a step appended.
#[derive(Clone, Copy)]
pub(crate) struct Ending {
    pub(crate) fate: Fate,
    /// The step that appended the marker which ended its transaction, if one did.
    pub(crate) ended: Option<usize>,
}

/// What steps appended, and what became of it in the logs.
#[derive(Drop)]
pub(crate) struct Endings {
    // the step that appended what is at an offset of a lane's log
    steps: HashMap<(usize, i64), usize>,
    // by step, what became of what it appended, if that is in a log
    endings: HashMap<usize, Ending>,
}

impl Endings {
    /// The endings of a run of which nothing is known.
    pub(crate) fn new(alloc: Global) -> Endings {
        Endings {
            steps: HashMap::new(alloc),
            endings: HashMap::new(alloc),
        }
    }

    /// Notes what a step appended to its lane's log, if it appended a batch or a marker.
    ///
    /// # Errors
    ///
    /// Only if memory runs out.
    pub(crate) fn append(
        &mut self,
        step: usize,
        lane: usize,
        seen: &Seen<'_>,
    ) -> Result<(), AllocError> {
        if seen.has_appended() {
            self.steps.insert((lane, seen.before.end), step)?;
        }
        Ok(())
    }

    // The step that appended what is at an offset of a lane's log, if one did.
    fn step_at(&self, lane: usize, offset: i64) -> Option<usize> {
        self.steps.get(&(lane, offset)).copied()
    }

    /// Notes what became of the batch at an offset of a lane's log, whose transaction the marker at
    /// another offset ended, if one did.
    ///
    /// # Errors
    ///
    /// Only if memory runs out.
    pub(crate) fn settle(
        &mut self,
        lane: usize,
        offset: i64,
        fate: Fate,
        marker: Option<i64>,
    ) -> Result<(), AllocError> {
        let Some(step) = self.step_at(lane, offset) else {
            return Ok(());
        };
        let ended = match marker {
            Some(marker) => self.step_at(lane, marker),
            None => None,
        };
        self.endings.insert(step, Ending { fate, ended })?;
        Ok(())
    }

    /// What became of what a step appended; nothing if it appended nothing that is in a log.
    pub(crate) fn of(&self, step: usize) -> Ending {
        match self.endings.get(&step) {
            Some(ending) => *ending,
            None => Ending {
                fate: Fate::Plain,
                ended: None,
            },
        }
    }
}
