// What is written when a message is accepted, in the bytes of a round. Only what a message needs is written.
ghost use Rattle.std.specs.Prelude.{◌≡◌, ◌≤◌, ◌<◌, length, set, replicate};
ghost use Rattle.protocol.specs.Table.{offers};
ghost use Rattle.round.specs.Limits.{max_held};
ghost use Rattle.round.specs.Holdings.{named};
ghost use Rattle.round.specs.Delivery.{previous_place, with_row, hold, returned, with_recent, recent_with};
ghost use Rattle.roundbytes.specs.Layout.{round_len, round_in};
ghost use Rattle.roundbytes.specs.Inside.Keeping.{Kept};
ghost use Rattle.admission.specs.Inside.Votes.{record_of};
ghost use Rattle.holding.specs.Inside.Storing.{Free};

use admission::rows::Vote;
use base::{put_all, put8, put64};
use message::layout::{ACCEPTOR, ID_LEN, PROPOSAL};
use round::{MAX_HELD, NO_PLACE};
use roundbytes::readers::{held_of, kind_at};
use roundbytes::{
    BALLOTS_AT, COUNTS_AT, HELD_AT, IDS_AT, KINDS_AT, KNOWN_AT, LAST_AT, PREVIOUS_AT, RECENT_AT,
    REFERENCES_AT, SIGNERS_AT,
};

// What is held of a message, but for its references, put behind the others.
fn put_row(
    s: &mut [u8],
    id: &[u8],
    kind: u8,
    signer: u8,
    ballot: u64,
    previous: u8,
    count: u8,
    known: u8,
)
    requires { Free s.old id.now }
    ensures held { round_in s.new ≡ with_row (round_in s.old) (round_in s.old).references id.now kind signer ballot previous count known }
    ensures kept { Kept s.old s.new }
{
    let held = s[HELD_AT];
    let place = usize::from(held);
    put_all(s, IDS_AT + ID_LEN * place, id);
    put8(s, KINDS_AT + place, kind);
    put8(s, SIGNERS_AT + place, signer);
    put64(s, BALLOTS_AT + 8 * place, ballot);
    put8(s, PREVIOUS_AT + place, previous);
    put8(s, COUNTS_AT + place, count);
    put8(s, KNOWN_AT + place, known);
    put8(s, RECENT_AT + place, 0);
    put8(s, HELD_AT, held + 1);
}

// A proposal put behind the others, known.
pub fn hold_proposal(s: &mut [u8], id: &[u8], proposer: u8, ballot: u64)
    requires { Free s.old id.now }
    ensures held { round_in s.new ≡ hold (round_in s.old) (offers id.now proposer ballot) 1 }
    ensures kept { Kept s.old s.new }
{
    put_row(s, id, PROPOSAL, proposer, ballot, NO_PLACE, 0, 1);
}

// An acceptor message put behind the others. The place of its previous message is the one that the id there names.
pub fn hold_vote(s: &mut [u8], id: &[u8], vote: &Vote, known: u8)
    requires { Free s.old id.now × (vote.now.previous ≡ previous_place (round_in s.old) (named (round_in s.old) vote.now.previous)) }
    ensures held { round_in s.new ≡ hold (round_in s.old) (record_of (round_in s.old) id.now vote.now) known }
    ensures kept { Kept s.old s.new }
{
    let place = held_of(s);
    let places = vote.places();
    let count = places.len();
    put_all(s, REFERENCES_AT + MAX_HELD * place, places);
    put_row(
        s,
        id,
        ACCEPTOR,
        vote.signer,
        0,
        vote.previous,
        count as u8,
        known,
    );
}

// The return of a message that awaited it.
pub fn returned(s: &mut [u8], place: usize)
    requires { (round_len ≤ length s.old) × (place < max_held) }
    ensures held { round_in s.new ≡ returned (round_in s.old) place }
    ensures kept { Kept s.old s.new }
{
    put8(s, KNOWN_AT + place, 1);
}

// After a message that gave no reply: it joins recent, unless it is a proposal.
pub fn joined(s: &mut [u8], place: usize)
    requires { (round_len ≤ length s.old) × (place < max_held) }
    ensures held { round_in s.new ≡ with_recent (round_in s.old) (round_in s.old).last (recent_with (round_in s.old) place) }
    ensures kept { Kept s.old s.new }
{
    if kind_at(s, place) == PROPOSAL {
        return;
    }
    put8(s, RECENT_AT + place, 1);
}

// After a reply, which is held at a place: it is the last sent message, and recent is that one alone.
pub fn sent(s: &mut [u8], place: usize)
    requires { (round_len ≤ length s.old) × (place < max_held) }
    ensures held { round_in s.new ≡ with_recent (round_in s.old) place (set (replicate max_held 0) place 1) }
    ensures kept { Kept s.old s.new }
{
    let mut recent = [0u8; MAX_HELD];
    recent[place] = 1;
    put_all(s, RECENT_AT, &recent);
    put8(s, LAST_AT, place as u8);
}
