//! The order into which an audit put the steps, as it is told.
use kx_audit::{Remade, Run, Turn};
use kx_cases::StepFault;
use kx_machine::{Command, Input, Note, Taken};
use std::alloc::AllocError;

// The first word of the line that tells a client this.
fn command_word(command: &Command) -> &'static str {
    match command {
        Command::Init => "init",
        Command::Begin => "begin",
        Command::Send(_, _) => "send",
        Command::Join(_) => "join",
        Command::Leave => "leave",
        Command::Offsets(_) => "offsets",
        Command::End(_) => "end",
        Command::Resend => "resend",
        Command::Poll => "poll",
    }
}

// The first word of the line that hands a node this.
fn input_word(input: &Input) -> &'static str {
    match input {
        Input::Deliver(_) => "deliver",
        Input::Command(command) => command_word(command),
        Input::Expire(_) => "expire",
        Input::Remind => "remind",
        Input::Drop(_, _) => "drop",
        Input::Put(_) => "put",
        Input::Restart(_) => "restart",
    }
}

// Reports what a node was handed: a message by its text, all else by a word.
fn tell_input(told: &mut String, input: &Input) -> Result<(), AllocError> {
    match input {
        Input::Deliver(message) => write!(told, " {message}"),
        other => write!(told, " {}", input_word(other)),
    }
}

// Reports what a node answered: each message after its receiver, and what it answered beside them.
fn tell_taken(told: &mut String, taken: &Taken) -> Result<(), AllocError> {
    for message in taken.messages.as_slice() {
        write!(told, " > {} {message}", message.receiver())?;
    }
    match taken.note {
        Note::Done => Ok(()),
        note => write!(told, " {note:?}"),
    }
}

// Reports a step: the node, its place in the node's trace, the input and the answer.
fn tell_turn<B: Remade>(told: &mut String, run: &Run<B>, turn: Turn) -> Result<(), StepFault> {
    let Some(trace) = run.trace(turn.trace) else {
        return Err(StepFault::Unknown);
    };
    let (Some(step), Some(taken)) = (run.step(turn), run.taken(turn)) else {
        return Err(StepFault::Unknown);
    };
    write!(told, "{} {}", trace.node(), turn.step)?;
    tell_input(told, &step.input)?;
    tell_taken(told, taken)?;
    Ok(writeln!(told)?)
}

/// Tells all steps, a line each, in the order into which the audit put them.
pub(crate) fn tell_turns<B: Remade>(told: &mut String, run: &Run<B>) -> Result<(), StepFault> {
    for turn in run.turns() {
        tell_turn(told, run, *turn)?;
    }
    Ok(())
}
