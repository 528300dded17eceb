// Messages: read from bytes, and written to a lent buffer.
//
// Ids stay in the message's own bytes and are reached by their place there.
#![tactic(auto)]

pub mod ballot;
pub mod layout;
pub mod order;
mod reader;
pub mod references;
mod writer;

ghost use Rattle.std.specs.Prelude.{◌≡◌, ◌+◌, ◌*◌, ◌<◌, length};
ghost use Rattle.message.specs.Reader.{reading, reference_in};
ghost use Rattle.message.specs.Writer.{acceptor_bytes, fronted, proposal_bytes, proposal_of, reference_answer, reference_to, written_to, wrote};
ghost use Rattle.message.specs.Inside.Writing.{Writable, gathered};

use ballot::ballot_of;
use base::refusal::Refusal;
use base::{put_all, put8, put64, read16};
use layout::{
    ACCEPTOR, BALLOT_AT, ID_LEN, KIND_AT, MARKER_AT, OUTER_LEN, PREVIOUS_AT, PROPOSAL,
    PROPOSAL_LEN, VERSION, VERSION_AT, count_at,
};
use reader::{byte_at, read_acceptor, read_proposal};
use references::References;
use writer::{put_references, write_head};

#[derive(Clone, Copy)]
pub struct Proposal {
    pub house: u16,
    pub bay: u16,
    pub proposer: u8,
    pub ballot: u64,
}

// A 1b or a 2a. Its previous id and its references stand in the bytes it was read from.
#[derive(Clone, Copy)]
pub struct AcceptorMessage {
    pub house: u16,
    pub bay: u16,
    pub signer: u8,
    // Whether it names a previous message.
    pub previous: bool,
    pub count: usize,
}

// What bytes say that are not turned down.
#[derive(Clone, Copy)]
pub enum Message {
    OfProposer(Proposal),
    OfAcceptor(AcceptorMessage),
}

// Reads a message from any bytes.
pub fn read(bytes: &[u8]) -> Result<Message, Refusal>
    ensures { result ≡ reading bytes.now }
{
    if bytes.len() < OUTER_LEN || bytes.len() != OUTER_LEN + read16(bytes, 0) {
        return Err(Refusal::Length);
    }
    if byte_at(bytes, VERSION_AT)? != VERSION {
        return Err(Refusal::Version);
    }
    match byte_at(bytes, KIND_AT)? {
        PROPOSAL => read_proposal(bytes),
        ACCEPTOR => read_acceptor(bytes),
        _ => Err(Refusal::Range),
    }
}

// Where the n-th reference stands, from 0 on.
pub fn reference(bytes: &[u8], n: usize) -> Result<usize, Refusal>
    ensures { result ≡ reference_in bytes.now n }
{
    match read(bytes)? {
        Message::OfProposer(_) => Err(Refusal::Argument),
        Message::OfAcceptor(m) => References::new(bytes, m.count).nth(n),
    }
}

// Hands the 32 bytes of the n-th reference out, and answers how many bytes it wrote.
pub fn copy_reference(bytes: &[u8], n: usize, id: &mut [u8]) -> Result<usize, Refusal>
    ensures { (result ≡ reference_answer bytes.now n id.old) × (id.new ≡ reference_to bytes.now n id.old) }
{
    if id.len() < ID_LEN {
        return Err(Refusal::Argument);
    }
    let at = reference(bytes, n)?;
    put_all(id, 0, &bytes[at..at + ID_LEN]);
    Ok(ID_LEN)
}

// Writes a proposal and answers its length. The round number is written as it is given; `ballot::meant_round` says what 0 stands for.
pub fn write_proposal(
    house: u16,
    bay: u16,
    proposer: u8,
    round: u32,
    value: u32,
    buf: &mut [u8],
) -> Result<usize, Refusal>
    ensures { (result ≡ wrote (proposal_bytes (proposal_of house bay proposer round value)) buf.old) × (buf.new ≡ written_to (proposal_bytes (proposal_of house bay proposer round value)) buf.old) }
{
    if buf.len() < PROPOSAL_LEN {
        return Err(Refusal::Argument);
    }
    write_head(buf, PROPOSAL_LEN, PROPOSAL, house, bay, proposer);
    put64(buf, BALLOT_AT, ballot_of(round, value));
    Ok(PROPOSAL_LEN)
}

// Writes an acceptor message and answers its length. An empty previous id stands for none. The
// references are the ids at the first `count` places of a table; the caller lists them ascending.
pub fn write_acceptor<'a>(
    house: u16,
    bay: u16,
    signer: u8,
    previous: &'a [u8],
    ids: &'a [u8],
    places: &'a [u8],
    count: usize,
    buf: &mut [u8],
) -> usize
    requires { Writable previous.now ids.now places.now buf.old count }
    ensures { (result ≡ length (acceptor_bytes house bay signer previous.now count (gathered count ids.now places.now))) × (buf.new ≡ fronted (acceptor_bytes house bay signer previous.now count (gathered count ids.now places.now)) buf.old) }
{
    let named = previous.len() != 0;
    let at = count_at(named);
    let len = at + 1 + ID_LEN * count;
    write_head(buf, len, ACCEPTOR, house, bay, signer);
    put8(buf, MARKER_AT, u8::from(named));
    put_all(buf, PREVIOUS_AT, previous);
    put8(buf, at, count as u8);
    put_references(buf, at + 1, ids, places, count);
    len
}
