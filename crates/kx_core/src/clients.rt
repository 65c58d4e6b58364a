//! The clients of a world.
ghost use Rattle.std.specs.Prelude.{◌≡◌, ◌++◌, [], ◌∷◌, None, Some, slice_get};
ghost use Rattle.std.specs.Prelude.{MatchOption, MatchResult, nat_lt, true};
ghost use Rattle.kx_core.specs.Clients.{TakesAt, all_of, client_in, clients_in};
ghost use Rattle.kx_client_node.specs.Clients.{client_of};
ghost use Rattle.kx_core.specs.World.{given};
ghost use Rattle.kx_client_node.specs.declared.any_client.AnyClient.{AnyClient};
ghost use Rattle.kx_model.specs.World.{is_new};

use crate::hand::{self, Given};
use kx_client_node::AnyClient;
use kx_machine::Taken;
use kx_message::ClientId;
use kx_processor::Process;
use std::alloc::{AllocError, Global};
use std::marker::Model;

/// The clients, in the order in which they were made, which is that of their numbers.
#[derive(Drop)]
pub(crate) struct Clients<F: Process> {
    clients: Vec<AnyClient<F>>,
}

impl<F: Process> Model for Clients<F> {
    ghost use Rattle.std.specs.Prelude.{List, map};
    ghost use Rattle.kx_core.specs.Clients.{AreRising};
    ghost use Rattle.kx_client_node.specs.Clients.{client_of};
    ghost use Rattle.kx_client_node.specs.declared.any_client.AnyClient.{AnyClient};

    ghost Value = { List (AnyClient F) };

    ghost view = { λ c. c.clients.items };

    ghost invariant = { λ c. AreRising (map (λ one. (client_of one).number) c.clients.items) };
}

impl<F: Process> Clients<F> {
    /// A list of no client.
    pub(crate) fn new(alloc: Global) -> Self
        ensures { result ≡ [] }
    {
        Clients {
            clients: Vec::new(alloc),
        }
    }

    /// Whether a number is above all.
    pub(crate) fn is_new(&self, number: ClientId) -> bool
        ensures { result ≡ is_new number (clients_in self.now) }
    {
        match self.clients.last() {
            None => true,
            Some(last) => last.number() < number,
        }
    }

    /// Adds a client, whose number is above all others.
    ///
    /// # Errors
    ///
    /// Only if memory runs out; then they are as before.
    pub(crate) fn add(&mut self, one: AnyClient<F>) -> Result<(), AllocError>
        requires { is_new (client_of one).number (clients_in self.old) ≡ true }
        ensures { MatchResult result (λ done. self.new ≡ self.old ++ one ∷ [])
            (λ refused. self.new ≡ self.old) }
    {
        self.clients.push(one)?;
        Ok(())
    }

    // Where the client of this number stands.
    fn place_of(&self, number: ClientId) -> Option<usize>
        ensures { MatchOption result (client_in (clients_in self.now) number ≡ None)
            (λ place. (one : AnyClient F) × (slice_get self.now place ≡ Some one)
            × ((client_of one).number ≡ number)) }
    {
        let place = self.clients.partition_point(
            |client: &AnyClient<F>| -> bool
                ensures { result ≡ nat_lt (client_of client.now).number number }
            { client.number() < number },
        );
        let Some(client) = self.clients.get(place) else {
            return None;
        };
        if client.number() == number {
            Some(place)
        } else {
            None
        }
    }

    /// The client of this number.
    pub(crate) fn get(&self, number: ClientId) -> Option<&AnyClient<F>>
        ensures { MatchOption result (client_in (clients_in self.now) number ≡ None)
            (λ client. client_in (clients_in self.now) number
            ≡ Some (client_of client.now)) }
    {
        let place = self.place_of(number)?;
        Some(&self.clients[place])
    }

    /// The client of this number takes what it is handed; nothing happens if there is none.
    ///
    /// # Errors
    ///
    /// Only if memory runs out; then they are as before.
    pub(crate) fn take(
        &mut self,
        number: ClientId,
        handed: Given<'_>,
    ) -> Result<Option<Taken>, AllocError>
        ensures { MatchResult result
            (TakesAt (all_of F.image_of self.old) (all_of F.image_of self.new) number
            (given handed.entry))
            (λ refused. all_of F.image_of self.new ≡ all_of F.image_of self.old) }
    {
        let Some(place) = self.place_of(number) else {
            return Ok(None);
        };
        let taken = hand::take(&mut self.clients[place], handed)?;
        Ok(Some(taken))
    }
}
