//! What happened in a demonstration, by its trace.
use crate::events::{Event, event_in};
use kx_cases::StepFault;
use std::alloc::Global;

// After how many looks without a frame a client sends again.
const LOOKS: usize = 100;

/// The events of a trace, and the lines of the logs after them.
#[derive(Drop)]
pub struct Happened<'a> {
    events: Vec<Event<'a>>,
    logs: Vec<&'a str>,
}

// Whether a node is a client.
fn is_client(node: &str) -> bool {
    node.starts_with('c') && node != "co"
}

// Whether a message is a client's request.
fn is_request(text: &str) -> bool {
    match text.split_once(' ') {
        Some((kind, _)) => matches!(
            kind,
            "Init" | "EndTxn" | "Produce" | "Fetch" | "Join" | "Leave" | "Offsets" | "OffsetFetch"
        ),
        None => false,
    }
}

// `none` or `some`.
fn some(count: usize) -> &'static str {
    if count == 0 { "none" } else { "some" }
}

impl<'a> Happened<'a> {
    /// What a trace tells. Its events are numbered from 0 on.
    pub fn new(alloc: Global, trace: &'a str) -> Result<Happened<'a>, StepFault> {
        let mut events = Vec::new(alloc);
        let mut logs = Vec::new(alloc);
        let mut is_log = false;
        for (number, line) in trace.lines().enumerate() {
            is_log = is_log || line.starts_with("log of ");
            if is_log {
                logs.push(line)?;
            } else {
                events.push(event_in(alloc, number, line)?)?;
            }
        }
        Ok(Happened { events, logs })
    }

    // How many messages came to clients once more.
    fn repeated(&self) -> usize {
        let mut count = 0usize;
        for event in &self.events {
            let is_again = event.arrived.is_some_and(|message| message.is_again);
            if is_client(event.node) && is_again {
                count = count.saturating_add(1);
            }
        }
        count
    }

    // Whether a client took this message last in front of the event of this number.
    fn is_last_of(&self, number: usize, node: &str, text: &str) -> bool {
        for event in self.events.iter().take(number).rev() {
            if event.node == node
                && let Some(message) = event.arrived
            {
                return message.text == text;
            }
        }
        false
    }

    // How many copies came to clients with other messages in between.
    fn held(&self) -> usize {
        let mut count = 0usize;
        for (number, event) in self.events.iter().enumerate() {
            let Some(message) = event.arrived else {
                continue;
            };
            if is_client(event.node)
                && message.is_again
                && !self.is_last_of(number, event.node, message.text)
            {
                count = count.saturating_add(1);
            }
        }
        count
    }

    // How many requests clients sent.
    fn requests(&self) -> usize {
        let mut count = 0usize;
        for event in &self.events {
            if is_client(event.node) {
                count = count.saturating_add(event.sent.len());
            }
        }
        count
    }

    // How many requests came, each as often as it came.
    fn arrivals(&self) -> usize {
        let mut count = 0usize;
        for event in &self.events {
            if event
                .arrived
                .is_some_and(|message| is_request(message.text))
            {
                count = count.saturating_add(1);
            }
        }
        count
    }

    // How many requests were lost: those that aren't come twice, as each that isn't lost does.
    fn lost(&self) -> usize {
        let twice = self.requests().saturating_mul(2);
        twice.saturating_sub(self.arrivals()) / 2
    }

    // How often the client that did so most often sent again.
    fn most_resends(&self) -> usize {
        let mut most = 0usize;
        for client in ["c1", "c2", "c3", "c4"] {
            let mut count = 0usize;
            for event in &self.events {
                if event.node == client && event.action == "sends again" {
                    count = count.saturating_add(1);
                }
            }
            most = most.max(count);
        }
        most
    }

    // How many events have this action.
    fn count_actions(&self, begins: &str) -> usize {
        let mut count = 0usize;
        for event in &self.events {
            if event.action.starts_with(begins) {
                count = count.saturating_add(1);
            }
        }
        count
    }

    // How many requests for offsets were refused as of no member.
    fn refused(&self) -> usize {
        self.count_actions("takes OffsetsReply 25")
    }

    // How many lines of the logs begin so.
    fn count_logs(&self, begins: &str) -> usize {
        let mut count = 0usize;
        for line in &self.logs {
            if line.starts_with(begins) {
                count = count.saturating_add(1);
            }
        }
        count
    }

    // Whether most copies came with other messages in between.
    fn held_back(&self) -> &'static str {
        if self.held() > self.repeated() / 2 {
            "most"
        } else {
            "few"
        }
    }

    /// Tells a fact of this name: `lost`, whether requests were lost; `repeated`, whether messages
    /// came to clients again; `held`, whether most or few of these came with others in between;
    /// `looks`, whether a client looked for a frame more than 1,000 times; `dropped`, how often a
    /// member was dropped; `refused`, whether a member's offsets were refused as of no member;
    /// `logs`, of how many partitions the logs are shown.
    pub fn tell(&self, fact: &str, told: &mut String) -> Result<(), StepFault> {
        match fact {
            "lost" => writeln!(told, "lost {}", some(self.lost()))?,
            "repeated" => writeln!(told, "repeated {}", some(self.repeated()))?,
            "held" => writeln!(told, "held {}", self.held_back())?,
            "looks" => {
                let looks = self.most_resends().saturating_mul(LOOKS);
                let many = if looks > 1000 { "more" } else { "fewer" };
                writeln!(told, "looks {many}")?;
            }
            "dropped" => writeln!(told, "dropped {}", self.count_actions("drops c"))?,
            "refused" => writeln!(told, "refused {}", some(self.refused()))?,
            "logs" => writeln!(told, "logs {}", self.count_logs("log of p"))?,
            _ => return Err(StepFault::Unknown),
        }
        Ok(())
    }
}
