//! Pages that go over a stream.
ghost use Rattle.std.specs.Prelude.{◌≡◌, ℕ, ℤ, Bool, List, Ok};
ghost use Rattle.kx_log.specs.Log.{IsLog};
ghost use Rattle.kx_message.specs.declared.requests.Caller.{Caller};
ghost use Rattle.kx_model.specs.Log.{Stored};
ghost use Rattle.kx_model.specs.Page.{Page, fetched, fetched_of};
ghost use Rattle.kx_model.specs.PartitionNode.{fetch_reply};
ghost use Rattle.kx_partition.specs.Reply.{page_in};

/// A law: the page of a log that a reply to a fetch carries is read of that reply as the page that
/// it was (`FetchPage::from_reply`, and `Committed` over it): the same batches, aborted
/// transactions and offsets.
pub fn served_pages_are_read()
    ensures { (log : List Stored) (caller : Caller) (number : ℕ) (from : ℤ) (room : ℕ)
        (committed : Bool) (page : Page) → IsLog log → fetched log from room committed ≡ Ok page
        → page_in from (fetch_reply caller number (Ok page)) ≡ Ok (fetched_of page) }
{}
