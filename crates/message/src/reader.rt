// The fields behind the kind.
ghost use Rattle.std.specs.Prelude.{◌≡◌, ◌+◌, ◌≤◌, ◌<◌, length, get_or, MatchResult};
ghost use Rattle.base.specs.Bytes.{be};
ghost use Rattle.base.specs.declared.refusal.Refusal.TheVariants.{Length};
ghost use Rattle.message.specs.Layout.{marker_at};
ghost use Rattle.message.specs.Reader.{read_proposal, read_acceptor, read_marked, read_counted, Counted};

use super::layout::{
    BALLOT_AT, BAY_AT, HOUSE_AT, ID_LEN, MARKER_AT, MAX_REFERENCES, PROPOSAL_LEN, SIGNER_AT,
    count_at,
};
use super::order::ids_ascend;
use super::{AcceptorMessage, Message, Proposal};
use base::refusal::Refusal;
use base::{read16, read64};

// The byte at a place, if the bytes do not end before it.
pub fn byte_at(s: &[u8], at: usize) -> Result<u8, Refusal>
    ensures { MatchResult result (λ b. (at < length s.now) × (b ≡ get_or s.now at 0)) (λ e. (length s.now ≤ at) × (e ≡ Length)) }
{
    s.get(at).copied().ok_or(Refusal::Length)
}

// A two-byte field, house or bay.
fn field16(s: &[u8], at: usize) -> u16
    requires { at + 2 ≤ length s.now }
    ensures { result ≡ be 2 s.now at }
{
    read16(s, at) as u16
}

pub fn read_proposal(s: &[u8]) -> Result<Message, Refusal>
    ensures { result ≡ read_proposal s.now }
{
    if s.len() != PROPOSAL_LEN {
        return Err(Refusal::Length);
    }
    Ok(Message::OfProposer(Proposal {
        house: field16(s, HOUSE_AT),
        bay: field16(s, BAY_AT),
        proposer: s[SIGNER_AT],
        ballot: read64(s, BALLOT_AT),
    }))
}

pub fn read_acceptor(s: &[u8]) -> Result<Message, Refusal>
    ensures { result ≡ read_acceptor s.now }
{
    let marker = byte_at(s, MARKER_AT)?;
    if marker > 1 {
        return Err(Refusal::Range);
    }
    read_marked(s, marker == 1)
}

// The part behind the marker.
fn read_marked(s: &[u8], previous: bool) -> Result<Message, Refusal>
    requires { marker_at < length s.now }
    ensures { result ≡ read_marked s.now previous }
{
    let at = count_at(previous);
    let n = byte_at(s, at)?;
    read_counted(s, previous, at + 1, usize::from(n))
}

// The part behind the count.
fn read_counted(s: &[u8], previous: bool, from: usize, n: usize) -> Result<Message, Refusal>
    requires { Counted s.now previous from n }
    ensures { result ≡ read_counted s.now previous n }
{
    if n == 0 {
        return Err(Refusal::Range);
    }
    if MAX_REFERENCES < n {
        return Err(Refusal::Range);
    }
    if s.len() != from + ID_LEN * n {
        return Err(Refusal::Length);
    }
    if !ids_ascend(s, from, n - 1) {
        return Err(Refusal::Order);
    }
    Ok(Message::OfAcceptor(AcceptorMessage {
        house: field16(s, HOUSE_AT),
        bay: field16(s, BAY_AT),
        signer: s[SIGNER_AT],
        previous,
        count: n,
    }))
}
