//! The places of groups. By its place the server names the transactional id with which it commits a
//! group's offsets, so a place that is given back is taken again before a new one.
use std::alloc::Global;

/// The places that are free.
#[derive(Drop)]
pub(crate) struct Places {
    // all from this one on are free, but for those that are nobody's
    next: usize,
    given_back: Vec<usize>,
    // those that no group has
    nobodys: Vec<usize>,
}

impl Places {
    /// All places but these.
    pub(crate) fn without(alloc: Global, nobodys: Vec<usize>) -> Places {
        Places {
            next: 0,
            given_back: Vec::new(alloc),
            nobodys,
        }
    }

    /// A place that no group has.
    pub(crate) fn take(&mut self) -> usize {
        if let Some(place) = self.given_back.pop() {
            return place;
        }
        let mut place = self.next;
        for _ in 0..self.nobodys.len() {
            if self.nobodys.contains(&place) {
                place = place.saturating_add(1);
            }
        }
        self.next = place.saturating_add(1);
        place
    }

    /// The group that had this place is forgotten. If memory runs out, nobody has it any more.
    pub(crate) fn give_back(&mut self, place: usize) {
        let _ = self.given_back.push(place);
    }
}
