//! Nodes of every kind under locks, with their logs in memory.
use crate::making::AnyMaking;
use kx_audit::Remade;
use kx_machines::{AnyMachine, LocalStore};
use kx_nodes::{Node, Traced};
use kx_processor::Process;
use std::alloc::{AllocError, Global};

/// The machine of a node of any kind, with its trace. It keeps its log in memory, if it has one.
pub type LocalMachine<F> = Traced<AnyMachine<LocalStore, F>, AnyMaking<F>>;

/// A node of any kind under its lock, with its trace.
pub type LocalNode<F> = Node<LocalMachine<F>>;

/// The machine of a node that is made so, and has taken nothing yet.
///
/// # Errors
///
/// Only if memory runs out.
pub fn local_machine<F: Process + Copy>(
    alloc: Global,
    making: AnyMaking<F>,
) -> Result<LocalMachine<F>, AllocError> {
    let machine = making.make(alloc)?;
    Ok(Traced::new(alloc, making, machine))
}

/// A node that is made so, and has taken nothing yet.
///
/// # Errors
///
/// Only if memory runs out.
pub fn local_node<F: Process + Copy>(
    alloc: Global,
    making: AnyMaking<F>,
) -> Result<LocalNode<F>, AllocError> {
    Ok(Node::new(local_machine(alloc, making)?))
}
