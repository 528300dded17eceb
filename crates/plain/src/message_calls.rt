// Messages.
ghost use Rattle.std.specs.Prelude.{◌≡◌, ◌≤◌, length, Ok};
ghost use Rattle.message.specs.Reader.{reading};
ghost use Rattle.message.specs.Writer.{fronted, meant_round, proposal_bytes, proposal_of, reference_answer, reference_to, written_to, wrote};
ghost use Rattle.plain.specs.Answers.{answer_of};
ghost use Rattle.plain.specs.Message.{row, fields_of, fields_to, read_answer};

use super::answer;
use base::refusal::Refusal;
use base::{put_all, put8, put16, put64};
use message::Message;
use message::ballot::meant_round;
use message::layout::{ACCEPTOR, ID_LEN, PREVIOUS_AT, PROPOSAL};

// The bytes of the fields that a message is read to.
const ROW_LEN: usize = 48;

const HOUSE: usize = 1;

const BAY: usize = 3;

const SIGNER: usize = 5;

const BALLOT: usize = 6;

const MARKER: usize = 14;

const PREVIOUS: usize = 15;

const COUNT: usize = 47;

// Reads a message, and writes its fields to the front of a lent buffer.
pub fn read_message(bytes: &[u8], fields: &mut [u8]) -> u32
    ensures { (result ≡ read_answer bytes.now fields.old) × (fields.new ≡ fields_to bytes.now fields.old) }
{
    if fields.len() < ROW_LEN {
        return u32::from(Refusal::Argument);
    }
    let said = message::read(bytes);
    if let Ok(m) = said {
        put_message(bytes, m, fields);
    }
    answer(said)
}

// The row of a message that was read from these bytes.
fn put_message(bytes: &[u8], m: Message, fields: &mut [u8])
    requires { (reading bytes.now ≡ Ok m) × (48 ≤ length fields.old) }
    ensures { fields.new ≡ fields_of bytes.now (Ok m) fields.old }
{
    let mut previous = [0u8; ID_LEN];
    match m {
        Message::OfProposer(p) => {
            put_row(
                fields, PROPOSAL, p.house, p.bay, p.proposer, p.ballot, 0, &previous, 0,
            );
        }
        Message::OfAcceptor(a) => {
            if a.previous {
                previous.copy_from_slice(&bytes[PREVIOUS_AT..PREVIOUS_AT + ID_LEN]);
            }
            let marker = u8::from(a.previous);
            put_row(
                fields,
                ACCEPTOR,
                a.house,
                a.bay,
                a.signer,
                0,
                marker,
                &previous,
                a.count as u8,
            );
        }
    }
}

fn put_row(
    fields: &mut [u8],
    kind: u8,
    house: u16,
    bay: u16,
    signer: u8,
    ballot: u64,
    marker: u8,
    previous: &[u8],
    count: u8,
)
    requires { (48 ≤ length fields.old) × (length previous.now ≡ 32) }
    ensures { fields.new ≡ fronted (row kind house bay signer ballot marker previous.now count) fields.old }
{
    put8(fields, 0, kind);
    put16(fields, HOUSE, house as usize);
    put16(fields, BAY, bay as usize);
    put8(fields, SIGNER, signer);
    put64(fields, BALLOT, ballot);
    put8(fields, MARKER, marker);
    put_all(fields, PREVIOUS, previous);
    put8(fields, COUNT, count);
}

// The n-th reference of a message, from 0 on.
pub fn reference(bytes: &[u8], n: usize, id: &mut [u8]) -> u32
    ensures { (result ≡ answer_of (reference_answer bytes.now n id.old)) × (id.new ≡ reference_to bytes.now n id.old) }
{
    answer(message::copy_reference(bytes, n, id))
}

// Writes a proposal to the front of a lent buffer. Round number 0 stands for 1 and is written as 1.
pub fn write_proposal(
    house: u16,
    bay: u16,
    proposer: u8,
    round: u32,
    value: u32,
    message: &mut [u8],
) -> u32
    ensures { (result ≡ answer_of (wrote (proposal_bytes (proposal_of house bay proposer (meant_round round) value)) message.old)) × (message.new ≡ written_to (proposal_bytes (proposal_of house bay proposer (meant_round round) value)) message.old) }
{
    answer(message::write_proposal(house, bay, proposer, meant_round(round), value, message))
}
