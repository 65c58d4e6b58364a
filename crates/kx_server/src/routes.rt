//! Which connection spoke last for each client.
use crate::peer::Peer;
use indexmap::IndexMap;
use kx_message::ClientId;
use std::alloc::{AllocError, Global};
use std::sync::Arc;

/// The connection that spoke last for each client.
#[derive(Drop)]
pub(crate) struct Routes {
    peers: IndexMap<u32, Arc<Peer>>,
}

impl Routes {
    /// Routes of no client.
    pub(crate) fn new(alloc: Global) -> Routes {
        Routes {
            peers: IndexMap::new(alloc),
        }
    }

    /// Whether this connection spoke last for the client.
    pub(crate) fn is_of(&self, client: ClientId, peer: &Peer) -> bool {
        match self.peers.get(&client.get()) {
            Some(last) => last.number() == peer.number(),
            None => false,
        }
    }

    /// From now on replies to the client go over this connection.
    pub(crate) fn set(&mut self, client: ClientId, peer: Arc<Peer>) -> Result<(), AllocError> {
        match self.peers.insert(client.get(), peer) {
            Ok(_) => Ok(()),
            Err(_) => Err(AllocError),
        }
    }

    /// The connection over which replies to the client go.
    pub(crate) fn of(&self, client: ClientId) -> Option<Arc<Peer>> {
        Arc::try_clone(self.peers.get(&client.get())?).ok()
    }

    /// From now on no connection speaks for the client.
    pub(crate) fn forget_client(&mut self, client: ClientId) {
        let _ = self.peers.swap_remove(&client.get());
    }

    /// Forgets a connection.
    pub(crate) fn forget(&mut self, number: usize) {
        self.peers.retain(|_, peer| peer.number() != number);
    }
}
