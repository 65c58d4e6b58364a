//! The topics that a command line asks for.
use kx_gateway::{TopicFault, Topics};
use std::alloc::Global;
use thiserror::Error;

/// Why a text asks for no topics: what is written between two commas, and what is wrong with it.
#[derive(Clone, Copy, Debug, Error)]
pub enum AskFault<'a> {
    /// It isn't `NAME:PARTITIONS`.
    #[error("{0}: NAME:PARTITIONS is wanted")]
    Form(&'a str),
    /// It has no partitions, or more than are free.
    #[error("{asked}: a topic has at least 1 partition, and {free} are free")]
    Count {
        /// What is written.
        asked: &'a str,
        /// How many partitions are free.
        free: u16,
    },
    /// The table of topics refuses it otherwise.
    #[error("{asked}: {fault}")]
    Refused {
        /// What is written.
        asked: &'a str,
        /// Why.
        fault: TopicFault,
    },
}

// Adds the topic that is written as `NAME:PARTITIONS`.
fn add_asked<'a>(topics: &mut Topics, asked: &'a str) -> Result<(), AskFault<'a>> {
    let Some((name, count)) = asked.split_once(':') else {
        return Err(AskFault::Form(asked));
    };
    let Ok(count) = count.parse::<u16>() else {
        return Err(AskFault::Form(asked));
    };
    match topics.add(name.as_bytes(), count) {
        Ok(()) => Ok(()),
        Err(TopicFault::Count) => Err(AskFault::Count {
            asked,
            free: topics.free(),
        }),
        Err(fault) => Err(AskFault::Refused { asked, fault }),
    }
}

/// The table of the topics that are asked for, as `NAME:PARTITIONS` with commas between them.
///
/// # Errors
///
/// Of the first that can't be added: [`AskFault::Form`], [`AskFault::Count`], or why else the table
/// refuses it: a name that Kafka doesn't allow, one that is there twice, or out of memory.
pub fn topics_asked<'a>(alloc: Global, text: &'a str) -> Result<Topics, AskFault<'a>> {
    let mut topics = Topics::new(alloc);
    for asked in text.split(',') {
        add_asked(&mut topics, asked)?;
    }
    Ok(topics)
}
