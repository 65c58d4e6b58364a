//! Members of groups whose clients say nothing any more.
use kx_message::{ClientId, GroupId, Message};
use std::alloc::{AllocError, Global};
use std::sync::{Mutex, Wait};

/// A member of a group.
#[derive(Clone, Copy)]
pub struct Member {
    /// The group.
    pub group: GroupId,
    /// The client.
    pub client: ClientId,
}

// A member of a group, and how long ago its client was heard, in milliseconds.
#[derive(Clone, Copy)]
struct Session {
    member: Member,
    silence: u64,
}

/// The members of groups whose clients this server hears.
#[derive(Drop)]
pub(crate) struct Sessions {
    sessions: Mutex<Vec<Session>>,
}

// Whether there is a session of this member.
fn is_there(sessions: &[Session], wanted: &Member) -> bool {
    sessions.iter().any(|session| {
        session.member.client == wanted.client && session.member.group == wanted.group
    })
}

impl Sessions {
    /// With no member.
    pub(crate) fn new(alloc: Global) -> Sessions {
        Sessions {
            sessions: Mutex::new(Vec::new(alloc)),
        }
    }

    // The client of a member is heard.
    fn hear_client<R: Wait>(&self, rt: &R, client: ClientId) {
        let mut sessions = self.sessions.lock(rt);
        for session in sessions.iter_mut() {
            if session.member.client == client {
                session.silence = 0;
            }
        }
    }

    /// A member is given its time from now on, as one whose client is heard.
    ///
    /// # Errors
    ///
    /// Only if memory runs out for its session.
    pub(crate) fn add<R: Wait>(&self, rt: &R, member: Member) -> Result<(), AllocError> {
        let mut sessions = self.sessions.lock(rt);
        if !is_there(sessions.as_slice(), &member) {
            sessions.push(Session { member, silence: 0 })?;
        }
        Ok(())
    }

    /// A client sends this message.
    ///
    /// # Errors
    ///
    /// Only if memory runs out for the session of a client that joins.
    pub(crate) fn hear<R: Wait>(
        &self,
        rt: &R,
        client: ClientId,
        message: &Message,
    ) -> Result<(), AllocError> {
        self.hear_client(rt, client);
        match message {
            Message::Join(join) => {
                let group = join.group;
                self.add(rt, Member { group, client })
            }
            _ => Ok(()),
        }
    }

    /// So many milliseconds have passed.
    pub(crate) fn pass<R: Wait>(&self, rt: &R, millis: u64) {
        let mut sessions = self.sessions.lock(rt);
        for session in sessions.iter_mut() {
            session.silence = session.silence.saturating_add(millis);
        }
    }

    /// Takes a member out whose client wasn't heard for this long, if there is one.
    pub(crate) fn take_silent<R: Wait>(&self, rt: &R, limit: u64) -> Option<Member> {
        let mut sessions = self.sessions.lock(rt);
        let at = sessions.iter().position(|session| session.silence > limit)?;
        Some(sessions.swap_remove(at).member)
    }
}
