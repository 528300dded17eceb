// Where the fields of a message stand. A new field or another version is a change here.
ghost use Rattle.std.specs.Prelude.{◌≡◌, true, ◌≤◌};
ghost use Rattle.message.specs.Layout.{count_at, references_at};

pub const OUTER_LEN: usize = 2;

pub const VERSION_AT: usize = 2;

pub const VERSION: u8 = 1;

pub const KIND_AT: usize = 3;

pub const PROPOSAL: u8 = 1;

pub const ACCEPTOR: u8 = 2;

pub const HOUSE_AT: usize = 4;

pub const BAY_AT: usize = 6;

pub const SIGNER_AT: usize = 8;

pub const BALLOT_AT: usize = 9;

pub const PROPOSAL_LEN: usize = 17;

pub const MARKER_AT: usize = 9;

pub const PREVIOUS_AT: usize = 10;

pub const ID_LEN: usize = 32;
// The count of references, in a message that names no previous one.
pub const COUNT_AT: usize = 10;

pub const MAX_REFERENCES: usize = 128;
// The longest message: a previous id and as many references as there can be.
pub const MAX_LEN: usize = COUNT_AT + ID_LEN + 1 + ID_LEN * MAX_REFERENCES;

// Where the count of references stands.
pub fn count_at(previous: bool) -> usize
    ensures { (result ≡ count_at previous) × (result ≤ count_at true) }
{
    if previous {
        COUNT_AT + ID_LEN
    } else {
        COUNT_AT
    }
}

// Where the first reference stands.
pub fn references_at(previous: bool) -> usize
    ensures { (result ≡ references_at previous) × (result ≤ references_at true) }
{
    count_at(previous) + 1
}
