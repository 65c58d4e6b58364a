//! A client's fetches: pages of visible records, and offsets that a group committed.
ghost use Rattle.std.specs.Prelude.{◌≡◌, [], ◌∷◌, MatchResult};
ghost use Rattle.kx_client.specs.Calls.{IsRefused, commanded_page};
ghost use Rattle.kx_model.specs.Client.{Does, FetchOffset, command};

use crate::client::ProducerClient;
use crate::fault::ClientFault;
use kx_message::{Fetch, GroupId, Message, OffsetFetch, PartitionId};

// How many bytes of batches a page has at most, unless its first batch alone has more.
const PAGE_ROOM: u32 = 65_536;

impl ProducerClient {
    /// Asks a partition for a page of its visible records from this offset on, 0 or above (KIP-98's
    /// read_committed): batches below the last stable offset, and which transactions among them
    /// were aborted, whose records a reader skips. The batches have up to 65,536 bytes, or the page
    /// has one batch that is larger.
    ///
    /// # Errors
    ///
    /// The first that fits: [`Failed`](ClientFault::Failed) if the client has failed;
    /// [`NotReady`](ClientFault::NotReady) if the offset is below 0;
    /// [`UsedUp`](ClientFault::UsedUp) if no number is left for the request;
    /// [`Memory`](ClientFault::Memory). Nothing is changed then.
    #[tactic(auto, unfolding(kx_model::specs::Client::command))]
    pub fn fetch_page(&mut self, partition: PartitionId, from: i64) -> Result<Message, ClientFault>
        ensures { MatchResult result
            (λ sent. commanded_page self.old partition from ≡ Does self.new (sent ∷ []))
            (λ fault. IsRefused fault (commanded_page self.old partition from)
            × (self.new ≡ self.old)) }
    {
        if self.failed {
            return Err(ClientFault::Failed);
        }
        if from < 0 {
            return Err(ClientFault::NotReady);
        }
        let Some(caller) = self.caller() else {
            return Err(ClientFault::UsedUp);
        };
        let request = Message::Fetch(Fetch {
            caller,
            partition,
            from,
            max: PAGE_ROOM,
            committed: true,
        });
        Ok(self.ask(request)?)
    }

    /// Asks for the offset that a group committed for a partition, of which no commit in an open
    /// transaction may be pending (KIP-447's require-stable). Any client may ask, also one that is
    /// not in the group.
    ///
    /// # Errors
    ///
    /// The first that fits: [`Failed`](ClientFault::Failed) if the client has failed;
    /// [`UsedUp`](ClientFault::UsedUp) if no number is left for the request;
    /// [`Memory`](ClientFault::Memory). Nothing is changed then.
    #[tactic(auto, unfolding(kx_model::specs::Client::command))]
    pub fn fetch_offset(
        &mut self,
        group: GroupId,
        partition: PartitionId,
    ) -> Result<Message, ClientFault>
        ensures { MatchResult result
            (λ sent. command self.old (FetchOffset group partition) ≡ Does self.new (sent ∷ []))
            (λ fault. IsRefused fault (command self.old (FetchOffset group partition))
            × (self.new ≡ self.old)) }
    {
        if self.failed {
            return Err(ClientFault::Failed);
        }
        let Some(caller) = self.caller() else {
            return Err(ClientFault::UsedUp);
        };
        let request = Message::OffsetFetch(OffsetFetch {
            caller,
            group,
            partition,
            stable: true,
        });
        Ok(self.ask(request)?)
    }
}
