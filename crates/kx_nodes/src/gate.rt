//! What looks on while workers make steps.
use crate::fault::NodeFault;
use crate::receipt::Receipt;

/// Looks on at the steps of workers. A step's ticket is that of the input that it takes. Both are
/// called in the thread that makes the step, and may wait.
pub trait Gate: Drop {
    /// Called between taking an input from its inbox and the step.
    fn pass(&self, ticket: u64);

    /// Called after the step, with its answer. What the step sends to other nodes than those that
    /// the workers serve goes nowhere else.
    fn answered(&self, ticket: u64, answer: &Result<Receipt, NodeFault>);
}
