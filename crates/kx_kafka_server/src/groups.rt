//! What the server knows of consumer groups, which threads share.
use crate::absent::Absent;
use crate::places::Places;
use crate::users::Users;
use indexmap::IndexMap;
use kx_membership::Group;
use kx_message::{ClientId, GroupId, Held};
use kx_server::Waker;
use std::alloc::{AllocError, Global};
use std::mem;
use std::sync::{Arc, Mutex, Wait};

// How many groups are kept at most.
const MOST_GROUPS: usize = 10_000;

// A connection on which a JoinGroup or a SyncGroup waits for its answer.
#[derive(Drop)]
struct Waiting {
    connection: usize,
    waker: Arc<Waker>,
}

/// The transaction of the server's own in which offsets of a group are committed outside of clients'
/// transactions, one after the other.
#[derive(Drop)]
pub(crate) struct OwnTxn {
    /// The place of the group, which no other has meanwhile.
    pub(crate) place: usize,
    /// The id and epoch of the next one, if they are known.
    pub(crate) held: Mutex<Option<Held>>,
}

/// What is known of a group.
#[derive(Drop)]
pub(crate) struct KnownGroup {
    /// Who is a member, and how far the group is.
    pub(crate) group: Group,
    /// A member of the server's own, in whose name offsets are committed for clients that don't say
    /// which member they are.
    pub(crate) guest: Option<ClientId>,
    /// The generation of the core's group, once the guest has joined.
    pub(crate) generation: i32,
    /// How offsets are committed outside of clients' transactions.
    pub(crate) own: Arc<OwnTxn>,
    // the connections that wait for the group to move on
    waiting: Vec<Waiting>,
}

// A group, and how many threads use it.
#[derive(Drop)]
struct Entry {
    group: Arc<Mutex<KnownGroup>>,
    users: Users,
}

// The groups, by their names.
#[derive(Drop)]
struct All {
    by_id: IndexMap<GroupId, Entry>,
    places: Places,
    // whether whoever runs the server is told that there are as many as may be
    is_told: bool,
}

/// The groups, by their names.
#[derive(Drop)]
pub(crate) struct Groups {
    alloc: Global,
    all: Mutex<All>,
}

impl KnownGroup {
    // A group without members.
    fn new(alloc: Global, place: usize) -> Result<KnownGroup, AllocError> {
        let own = OwnTxn {
            place,
            held: Mutex::new(None),
        };
        let Ok(own) = Arc::new(alloc, own) else {
            return Err(AllocError);
        };
        Ok(KnownGroup {
            group: Group::new(alloc),
            guest: None,
            generation: 0,
            own,
            waiting: Vec::new(alloc),
        })
    }

    /// Has the waker of a connection be woken, once, when the group moves on.
    pub(crate) fn watch(&mut self, connection: usize, waker: Arc<Waker>) -> Result<(), AllocError> {
        self.waiting
            .retain(|waiting| waiting.connection != connection);
        self.waiting.push(Waiting { connection, waker })?;
        Ok(())
    }

    /// Wakes all who wait: the group has moved on, so that some may be answered.
    pub(crate) fn wake<R: Wait>(&mut self, rt: &R) {
        for waiting in &self.waiting {
            waiting.waker.wake(rt);
        }
        self.waiting.clear();
    }

    /// Whether the group has a member.
    pub(crate) fn has_members(&self) -> bool {
        self.group.number_at(0).is_some()
    }

    // Whether the server need not know the group: it has no member, and the core counts no guest.
    fn is_idle(&self) -> bool {
        !self.has_members() && self.guest.is_none() && self.group.gone().is_empty()
    }

    // Whether the core is to be told something of the group at this time, or nothing is kept of it but
    // a guest.
    fn is_due(&self, now: u64) -> bool {
        match self.group.next_time() {
            Some(time) => time <= now,
            None => !self.has_members(),
        }
    }
}

// A group, to be shared.
fn shared(alloc: Global, group: KnownGroup) -> Result<Arc<Mutex<KnownGroup>>, AllocError> {
    match Arc::new(alloc, Mutex::new(group)) {
        Ok(group) => Ok(group),
        Err(_) => Err(AllocError),
    }
}

impl All {
    // A group that is there, for a thread that uses it.
    fn enter_known(&mut self, id: &GroupId) -> Option<Result<Arc<Mutex<KnownGroup>>, AllocError>> {
        let entry = self.by_id.get_mut(id)?;
        let group = Arc::try_clone(&entry.group);
        if group.is_ok() {
            entry.users.enter();
        }
        Some(group)
    }

    // Adds a group, at this place, for a thread that uses it.
    fn add_at(
        &mut self,
        alloc: Global,
        id: GroupId,
        place: usize,
    ) -> Result<Arc<Mutex<KnownGroup>>, Absent> {
        let group = shared(alloc, KnownGroup::new(alloc, place)?)?;
        let known = Arc::try_clone(&group)?;
        let mut users = Users::none();
        users.enter();
        match self.by_id.insert(id, Entry { group, users }) {
            Ok(_) => Ok(known),
            Err(_) => Err(Absent::Memory),
        }
    }

    // Adds a group, for a thread that uses it.
    fn add(&mut self, alloc: Global, id: GroupId) -> Result<Arc<Mutex<KnownGroup>>, Absent> {
        if self.by_id.len() >= MOST_GROUPS {
            return Err(Absent::Full);
        }
        let place = self.places.take();
        let added = self.add_at(alloc, id, place);
        if added.is_err() {
            self.places.give_back(place);
        }
        added
    }

    // A thread uses a group no more. Returns the group's place if the group is to be forgotten.
    fn leave<R: Wait>(&mut self, rt: &R, id: &GroupId) -> Option<usize> {
        let entry = self.by_id.get_mut(id)?;
        if !entry.users.leave() {
            return None;
        }
        let known = entry.group.lock(rt);
        if known.is_idle() {
            Some(known.own.place)
        } else {
            None
        }
    }

    // Forgets a group that had this place.
    fn forget(&mut self, id: &GroupId, place: usize) {
        self.by_id.swap_remove(id);
        self.places.give_back(place);
        self.is_told = false;
    }

    // A group that nobody uses, and that is due at this time.
    fn due<R: Wait>(&self, rt: &R, now: u64) -> Option<GroupId> {
        for (id, entry) in self.by_id.iter() {
            if entry.users.is_none() && entry.group.lock(rt).is_due(now) {
                return Some(*id);
            }
        }
        None
    }
}

impl Groups {
    /// No group is known. None has one of these places.
    pub(crate) fn new(alloc: Global, nobodys: Vec<usize>) -> Groups {
        Groups {
            alloc,
            all: Mutex::new(All {
                by_id: IndexMap::new(alloc),
                places: Places::without(alloc, nobodys),
                is_told: false,
            }),
        }
    }

    /// The group of this name, if it is known, for a thread that uses it until it calls
    /// [`leave`](Groups::leave).
    pub(crate) fn enter_known<R: Wait>(
        &self,
        rt: &R,
        id: &GroupId,
    ) -> Option<Arc<Mutex<KnownGroup>>> {
        self.all.lock(rt).enter_known(id)?.ok()
    }

    /// The group of this name, which is known from now on, for a thread that uses it until it calls
    /// [`leave`](Groups::leave).
    ///
    /// # Errors
    ///
    /// If it isn't known and memory runs out, or as many are kept as may be.
    pub(crate) fn enter<R: Wait>(
        &self,
        rt: &R,
        id: GroupId,
    ) -> Result<Arc<Mutex<KnownGroup>>, Absent> {
        let mut all = self.all.lock(rt);
        match all.enter_known(&id) {
            Some(known) => Ok(known?),
            None => all.add(self.alloc, id),
        }
    }

    /// A thread uses a group no more. One that nobody uses, that has no members and of which the core
    /// counts none, is forgotten.
    pub(crate) fn leave<R: Wait>(&self, rt: &R, id: &GroupId) {
        let mut all = self.all.lock(rt);
        if let Some(place) = all.leave(rt, id) {
            all.forget(id, place);
        }
    }

    /// A group that nobody uses and of which the core is to be told something at this time, or of
    /// which nothing is kept but a guest; for a thread that uses it until it calls
    /// [`leave`](Groups::leave).
    pub(crate) fn enter_due<R: Wait>(
        &self,
        rt: &R,
        now: u64,
    ) -> Option<(GroupId, Arc<Mutex<KnownGroup>>)> {
        let mut all = self.all.lock(rt);
        let id = all.due(rt, now)?;
        let known = all.enter_known(&id)?.ok()?;
        Some((id, known))
    }

    /// As many are kept as may be. Says whether that is new, so that whoever runs the server is told.
    pub(crate) fn is_full_anew<R: Wait>(&self, rt: &R) -> bool {
        !mem::replace(&mut self.all.lock(rt).is_told, true)
    }
}
