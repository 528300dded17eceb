// The messages that the parties send each other.
ghost use Rattle.std.specs.Prelude.{◌≡◌, ◌≢◌, ◌≤◌, ◌↔◌, [], length, take, IsOk, IfOk};
ghost use Rattle.base.specs.Ballots.{ballot_of};
ghost use Rattle.digest.specs.Sha256.{sha256};
ghost use Rattle.message.specs.Writer.{proposal_bytes, proposal_of};

use crate::failure::Failure;
use arrayvec::{ArrayVec, CapacityError};
use digest::sha256;
use message::ballot::{ballot_of, round_of, value_of};
use message::layout::{MAX_LEN, PROPOSAL_LEN};
use message::{write_acceptor, write_proposal};
use std::fmt;

pub const HOUSE: u16 = 1;

pub const BAY: u16 = 12;

// The controller that lies.
const LIAR: u8 = 3;

// A proposal (1a), a controller's answer to one (1b), a controller's vote (2a).
#[derive(Clone, Copy, Debug, PartialEq, Eq)]
pub enum Kind {
    Proposal,
    Answer,
    Vote,
}

impl Kind {
    // What a message of this kind is replied to with.
    pub fn reply(self) -> Kind
        ensures proposal { self ≡ Kind.Proposal → result ≡ Kind.Answer }
        ensures other { self ≢ Kind.Proposal → result ≡ Kind.Vote }
    {
        match self {
            Kind::Proposal => Kind::Answer,
            Kind::Answer | Kind::Vote => Kind::Vote,
        }
    }
}

impl fmt::Display for Kind {
    fn fmt<W: fmt::Write>(&self, f: &mut fmt::Formatter<W>) -> fmt::Result {
        f.write_str(match self {
            Kind::Proposal => "1a",
            Kind::Answer => "1b",
            Kind::Vote => "2a",
        })
    }
}

// Who sends and who receives.
#[derive(Clone, Copy, Debug)]
pub enum Name {
    Proposer(u8),
    Controller(u8),
    Grower(u8),
}

impl fmt::Display for Name {
    fn fmt<W: fmt::Write>(&self, f: &mut fmt::Formatter<W>) -> fmt::Result {
        match self {
            Name::Proposer(n) => write!(f, "proposer {n}"),
            Name::Controller(n) => write!(f, "controller {n}"),
            Name::Grower(n) => write!(f, "grower {n}"),
        }
    }
}

// A message on its way, and what is told of it.
#[derive(Debug, Drop)]
pub struct Letter {
    pub message: ArrayVec<u8, MAX_LEN>,
    pub kind: Kind,
    pub sender: Name,
    // The ballot of the proposal beneath the message.
    pub ballot: u64,
}

// What stands where a site has no letter yet.
impl Default for Letter {
    ghost is_default = { λ l. l.message.items ≡ [] };

    fn default() -> Letter {
        Letter {
            message: ArrayVec::new(),
            kind: Kind::Proposal,
            sender: Name::Proposer(0),
            ballot: 0,
        }
    }
}

impl Letter {
    // The proposal of a round number and a value.
    pub fn proposal(proposer: u8, round: u32, value: u32) -> Result<Letter, Failure>
        ensures message { IfOk result (λ l. l.message.items ≡ proposal_bytes (proposal_of HOUSE BAY proposer round value)) }
        ensures told { IfOk result (λ l. (l.kind ≡ Kind.Proposal) × ((l.sender ≡ Name.Proposer proposer) × (l.ballot ≡ ballot_of round value))) }
    {
        let mut bytes = [0u8; PROPOSAL_LEN];
        write_proposal(HOUSE, BAY, proposer, round, value, &mut bytes)?;
        Ok(Letter {
            message: ArrayVec::try_from(&bytes[..]).unwrap(),
            kind: Kind::Proposal,
            sender: Name::Proposer(proposer),
            ballot: ballot_of(round, value),
        })
    }

    // What the liar replies to this letter: a 1b that names no previous message, or a 2a that names the 1b beneath it.
    pub fn forged(&self) -> Letter
        ensures answer { self.now.kind ≡ Kind.Proposal → result.kind ≡ Kind.Answer }
        ensures vote { self.now.kind ≢ Kind.Proposal → result.kind ≡ Kind.Vote }
        ensures told { (result.sender ≡ Name.Controller LIAR) × (result.ballot ≡ self.now.ballot) }
    {
        let id = self.id();
        let mut bytes = [0u8; MAX_LEN];
        let len = match self.kind {
            Kind::Proposal => write_acceptor(HOUSE, BAY, LIAR, b"", &id, b"\x00", 1, &mut bytes),
            Kind::Answer | Kind::Vote => write_acceptor(
                HOUSE, BAY, LIAR, &id, &id, b"\x00", 1, &mut bytes,
            ),
        };
        self.reply(&bytes, len, Name::Controller(LIAR), self.ballot)
            .unwrap()
    }

    // The reply to this letter: the first `len` of these bytes. It fails only where they are more than the longest message has.
    pub fn reply(
        &self,
        bytes: &[u8],
        len: usize,
        sender: Name,
        ballot: u64,
    ) -> Result<Letter, CapacityError>
        ensures message { IfOk result (λ l. l.message.items ≡ take len bytes.now) }
        ensures answer { self.now.kind ≡ Kind.Proposal → IfOk result (λ l. l.kind ≡ Kind.Answer) }
        ensures vote { self.now.kind ≢ Kind.Proposal → IfOk result (λ l. l.kind ≡ Kind.Vote) }
        ensures told { IfOk result (λ l. (l.sender ≡ sender) × (l.ballot ≡ ballot)) }
        ensures variant { IsOk result ↔ (length (take len bytes.now) ≤ MAX_LEN) }
    {
        let end = len.min(bytes.len());
        Ok(Letter {
            message: ArrayVec::try_from(&bytes[..end])?,
            kind: self.kind.reply(),
            sender,
            ballot,
        })
    }

    // The hash by which other messages refer to this one.
    pub fn id(&self) -> [u8; 32]
        ensures { result ≡ sha256 self.now.message.items }
    {
        sha256(&self.message)
    }
}

impl fmt::Display for Letter {
    fn fmt<W: fmt::Write>(&self, f: &mut fmt::Formatter<W>) -> fmt::Result {
        write!(
            f,
            "{} round {} value {}",
            self.kind,
            round_of(self.ballot),
            value_of(self.ballot)
        )
    }
}
