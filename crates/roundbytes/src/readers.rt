// A reader for each field of a round that is one number. Whoever needs such a field asks here, so that no other crate adds up where it stands.
ghost use Rattle.std.specs.Prelude.{◌≡◌, ◌≤◌, ◌<◌, length, get_or};
ghost use Rattle.round.specs.Limits.{max_held};
ghost use Rattle.roundbytes.specs.Layout.{round_len, round_in};

use crate::{
    ACCEPTORS_AT, BALLOTS_AT, BAY_AT, COUNTS_AT, HELD_AT, HOUSE_AT, KINDS_AT, KNOWN_AT, LAST_AT,
    LEARNERS_AT, OWN_AT, PREVIOUS_AT, RECENT_AT, SIGNERS_AT,
};
use base::{read16, read64};

// ---- the graph's counts
pub fn acceptors_of(s: &[u8]) -> u8
    requires { round_len ≤ length s.now }
    ensures { result ≡ (round_in s.now).graph.acceptors }
{
    s[ACCEPTORS_AT]
}

pub fn learners_of(s: &[u8]) -> usize
    requires { round_len ≤ length s.now }
    ensures { (result ≡ (round_in s.now).graph.learners) × (result < 256) }
{
    usize::from(s[LEARNERS_AT])
}

// ---- whose round it is
pub fn house_of(s: &[u8]) -> u16
    requires { round_len ≤ length s.now }
    ensures { result ≡ (round_in s.now).house }
{
    read16(s, HOUSE_AT) as u16
}

pub fn bay_of(s: &[u8]) -> u16
    requires { round_len ≤ length s.now }
    ensures { result ≡ (round_in s.now).bay }
{
    read16(s, BAY_AT) as u16
}

// Its acceptor number, or LISTENING for none.
pub fn own_of(s: &[u8]) -> u16
    requires { round_len ≤ length s.now }
    ensures { result ≡ (round_in s.now).own }
{
    read16(s, OWN_AT) as u16
}

// ---- what it holds
// How many messages.
pub fn held_of(s: &[u8]) -> usize
    requires { round_len ≤ length s.now }
    ensures { (result ≡ (round_in s.now).held) × (result < 256) }
{
    usize::from(s[HELD_AT])
}

// The place of the last sent message, or NO_PLACE.
pub fn last_of(s: &[u8]) -> u8
    requires { round_len ≤ length s.now }
    ensures { result ≡ (round_in s.now).last }
{
    s[LAST_AT]
}

// ---- the message at a place
// 1 for a proposal, any other for an acceptor message.
pub fn kind_at(s: &[u8], p: usize) -> u8
    requires { (round_len ≤ length s.now) × (p < max_held) }
    ensures { result ≡ get_or (round_in s.now).kinds p 0 }
{
    s[KINDS_AT + p]
}

pub fn signer_at(s: &[u8], p: usize) -> u8
    requires { (round_len ≤ length s.now) × (p < max_held) }
    ensures { result ≡ get_or (round_in s.now).signers p 0 }
{
    s[SIGNERS_AT + p]
}

// The place of its previous message, or NO_PLACE.
pub fn previous_at(s: &[u8], p: usize) -> u8
    requires { (round_len ≤ length s.now) × (p < max_held) }
    ensures { result ≡ get_or (round_in s.now).previous p 0 }
{
    s[PREVIOUS_AT + p]
}

// How many references it has.
pub fn count_at(s: &[u8], p: usize) -> u8
    requires { (round_len ≤ length s.now) × (p < max_held) }
    ensures { result ≡ get_or (round_in s.now).counts p 0 }
{
    s[COUNTS_AT + p]
}

// 0 where it awaits its return.
pub fn known_at(s: &[u8], p: usize) -> u8
    requires { (round_len ≤ length s.now) × (p < max_held) }
    ensures { result ≡ get_or (round_in s.now).known p 0 }
{
    s[KNOWN_AT + p]
}

// 0 where the next reply does not refer to it.
pub fn recent_at(s: &[u8], p: usize) -> u8
    requires { (round_len ≤ length s.now) × (p < max_held) }
    ensures { result ≡ get_or (round_in s.now).recent p 0 }
{
    s[RECENT_AT + p]
}

// The ballot of a proposal.
pub fn ballot_at(s: &[u8], p: usize) -> u64
    requires { (round_len ≤ length s.now) × (p < max_held) }
    ensures { result ≡ get_or (round_in s.now).ballots p 0 }
{
    read64(s, BALLOTS_AT + 8 * p)
}
