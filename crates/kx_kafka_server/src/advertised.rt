//! Where clients are told to find the broker.
ghost use Rattle.std.specs.Prelude.{◌≡◌, IfOk, MatchOption};
ghost use Rattle.kx_kafka_server.specs.Advertised.{Advertises, host_of, port_of, told_port};
ghost use Rattle.kx_kafka_server.specs.declared.advertised.Advertised.{Advertised as Asked};

use kx_gateway::Broker;
use std::alloc::{AllocError, Global};

// How many bytes a host has at most.
const LONGEST_HOST: usize = 255;

// The host if none is asked for.
const LOOPBACK: &str = "127.0.0.1";

/// Where clients are told to find the broker.
#[derive(Clone, Copy, Debug)]
pub struct Advertised<'a> {
    /// Its host name or address, of 1 to 255 bytes.
    pub host: &'a str,
    /// Its port; 0 is the one on which the server listens.
    pub port: u16,
}

/// What is written as `HOST:PORT`: a host of 1 to 255 bytes without a colon, and a port. None if
/// something else is written.
pub fn advertised_in(text: &str) -> Option<Advertised<'_>>
    ensures { MatchOption result ((asked : Asked) → Advertises text.now asked → ⊥)
        (Advertises text.now) }
{
    let (host, port) = text.split_once(':')?;
    let port = port.parse::<u16>().ok()?;
    if host.is_empty() || host.len() > LONGEST_HOST {
        return None;
    }
    Some(Advertised { host, port })
}

/// The address of the broker, as clients are told it.
#[derive(Drop)]
pub(crate) struct Address {
    host: Vec<u8>,
    // 0 is the port on which the server listens
    port: u16,
}

impl Address {
    /// The address that is asked for; else 127.0.0.1 and the port on which the server listens.
    pub(crate) fn of(alloc: Global, asked: Option<Advertised<'_>>) -> Result<Address, AllocError>
        ensures host { IfOk result (λ address. address.host.items ≡ host_of asked.entry) }
        ensures port { IfOk result (λ address. address.port ≡ port_of asked.entry) }
    {
        let (host, port) = match asked {
            Some(asked) => (asked.host, asked.port),
            None => (LOOPBACK, 0),
        };
        Ok(Address {
            host: Vec::from_slice(alloc, host.as_bytes())?,
            port,
        })
    }

    /// The broker, for clients of a server that listens on this port.
    pub(crate) fn broker(&self, taken: u16) -> Broker<'_>
        ensures host { result.host.now ≡ self.now.host.items }
        ensures port { result.port ≡ told_port self.now.port taken }
    {
        Broker {
            host: self.host.as_slice(),
            port: if self.port == 0 { taken } else { self.port },
        }
    }
}
