//! Which line of the rules decided.
ghost use Rattle.std.specs.Prelude.{◌≡◌};

/// A line of the rules (docs/RULES.md) by which a node answered: the id of that line in a page, which
/// `tools/rules.py` makes of its table and case. If two lines answer alike, the first of them.
#[derive(Clone, Copy, Debug, PartialEq, Eq)]
pub struct Rule(&'static str);

impl Rule {
    pub const BATCH_TOO_LARGE: Rule = Rule("batch-too-large");

    pub const BATCH_UNREADABLE: Rule = Rule("batch-unreadable");

    pub const BATCH_COMPRESSED: Rule = Rule("batch-compressed");

    pub const BATCH_NOT_DATA: Rule = Rule("batch-not-a-data-batch");

    pub const BATCH_OLD_EPOCH: Rule = Rule("batch-old-epoch");

    pub const BATCH_DUPLICATE: Rule = Rule("batch-duplicate");

    pub const BATCH_OUT_OF_ORDER: Rule = Rule("batch-out-of-order");

    pub const BATCH_EARLIER_OPEN: Rule = Rule("batch-earlier-transaction-open");

    pub const BATCH_OUTSIDE: Rule = Rule("batch-outside-its-transaction");

    pub const BATCH_UNVERIFIED: Rule = Rule("batch-unverified");

    pub const BATCH_CLOSED: Rule = Rule("batch-closed-offsets-used-up");

    pub const BATCH_APPENDED: Rule = Rule("batch-appended");

    pub const MARKER_FENCED: Rule = Rule("marker-coordinator-fenced");

    pub const MARKER_THERE: Rule = Rule("marker-already-there");

    pub const MARKER_ANOTHER_OPEN: Rule = Rule("marker-another-transaction-open");

    pub const MARKER_CLOSED: Rule = Rule("marker-closed-to-store-failed");

    pub const MARKER_APPENDED: Rule = Rule("marker-appended");

    pub const INIT_FIRST: Rule = Rule("init-first-use");

    pub const INIT_BELOW_OWNER: Rule = Rule("init-below-the-owner");

    pub const INIT_NOT_TWICE: Rule = Rule("init-not-twice");

    pub const INIT_PREPARING: Rule = Rule("init-still-preparing");

    pub const INIT_FENCES: Rule = Rule("init-fences-the-owner");

    pub const INIT_TAKES_OVER: Rule = Rule("init-takes-over");

    pub const ADD_UNKNOWN: Rule = Rule("add-unknown-id");

    pub const ADD_EPOCH: Rule = Rule("add-epoch-never-given");

    pub const ADD_OLD: Rule = Rule("add-old-epoch");

    pub const ADD_PREPARING: Rule = Rule("add-preparing");

    pub const ADD_LISTED: Rule = Rule("add-listed");

    pub const END_ENDED: Rule = Rule("end-already-ended");

    pub const END_OTHER: Rule = Rule("end-ended-otherwise");

    pub const END_OLD: Rule = Rule("end-old-epoch");

    pub const END_PREPARING: Rule = Rule("end-preparing");

    pub const ENDS: Rule = Rule("end-ends");

    pub const JOIN_ALREADY: Rule = Rule("group-join-a-member-already");

    pub const JOIN_REFUSED: Rule = Rule(
        "group-join-left-or-dropped-before-or-the-group-has-16-members",
    );

    pub const JOINS: Rule = Rule("group-join-else");

    pub const LEAVE_REFUSED: Rule = Rule("group-leave-drop-not-a-member");

    pub const LEAVES: Rule = Rule("group-leave-drop-else");

    pub const OFFSETS_NOT_MEMBER: Rule = Rule("group-offsets-not-a-member");

    pub const OFFSETS_GENERATION: Rule = Rule("group-offsets-the-generation-isn-t-the-present-one");

    pub const OFFSETS_TAKEN: Rule = Rule("group-offsets-else");

    pub const OFFSET_PENDING: Rule = Rule(
        "group-fetch-of-an-offset-a-stable-one-is-asked-for-and-an-open-transaction-has-an-offset-of-this-group-and-input-partition",
    );

    pub const OFFSET_FETCHED: Rule = Rule("group-fetch-of-an-offset-else");

    pub const SETTLES: Rule = Rule("settle");

    pub const RESTARTS: Rule = Rule("restart");

    /// The id of the line in a page.
    pub(crate) fn anchor(self) -> &'static str
        ensures { result.now ≡ self.0.now }
    {
        self.0
    }
}
