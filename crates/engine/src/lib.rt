// What runs a round that stands in a lent buffer: opening one, delivering a message to it, and reporting for a learner. The rules are those of the
// crate round.
#![tactic(auto)]

use crate::take::{take_proposal, take_vote};
use admission::start::start;
use base::refusal::Refusal;
use digest::sha256;
use graphfile::read;
use handed::fits;
use judging::verdict::verdict_for;
use message::Message;
use message::layout::MAX_LEN;
use round::Report;
use roundbytes::readers::learners_of;
use roundbytes::{ROUND_LEN, graph_in};

mod enter;
mod settle;
mod take;

ghost use Rattle.std.specs.Prelude.{◌≡◌, ◌≤◌, length};
ghost use Rattle.digest.specs.Sha256.{sha256};
ghost use Rattle.round.specs.Delivery.{delivered, replied};
ghost use Rattle.round.specs.Report.{reported};
ghost use Rattle.roundbytes.specs.Layout.{round_len, round_in};
ghost use Rattle.roundbytes.specs.Inside.Keeping.{Kept};
ghost use Rattle.engine.specs.Calls.{open_answer, open_to, deliver_answer, deliver_to, reply_to, report_answer};

// Opens a round at the front of s: a graph file, a house, a bay, and an acceptor number, or LISTENING for none. The file is checked first.
pub fn open(file: &[u8], house: u16, bay: u16, own: u32, s: &mut [u8]) -> Result<(), Refusal>
    ensures { (result ≡ open_answer file.now house bay own s.old) × (s.new ≡ open_to file.now house bay own s.old) }
{
    let graph = read(file)?;
    if s.len() < ROUND_LEN {
        return Err(Refusal::Argument);
    }
    start(graph, house, bay, own, s)
}

// Delivers the bytes of a message to the round in the front of s, where the bytes are enough for one.
fn deliver_in(s: &mut [u8], bytes: &[u8], reply: &mut [u8]) -> Result<Option<usize>, Refusal>
    requires { round_len ≤ length s.old }
    ensures given { (result ≡ (delivered sha256 (round_in s.old) bytes.now reply.old).outcome)
        × ((round_in s.new ≡ (delivered sha256 (round_in s.old) bytes.now reply.old).round)
        × (reply.new ≡ replied sha256 (round_in s.old) bytes.now reply.old)) }
    ensures kept { Kept s.old s.new }
{
    if !fits(s) {
        return Err(Refusal::Argument);
    }
    // As long as the longest message.
    if reply.len() < MAX_LEN {
        return Err(Refusal::Argument);
    }
    let message = message::read(bytes)?;
    let id = sha256(bytes);
    match message {
        Message::OfProposer(m) => take_proposal(s, &id, m, reply),
        Message::OfAcceptor(m) => take_vote(s, &id, m, bytes, reply),
    }
}

// Delivers the bytes of a message to the round in the front of s, and leaves the next round there. A reply is written to the front of its buffer, and its
// length answered.
pub fn deliver(s: &mut [u8], bytes: &[u8], reply: &mut [u8]) -> Result<Option<usize>, Refusal>
    ensures { (result ≡ deliver_answer s.old bytes.now reply.old)
        × ((s.new ≡ deliver_to s.old bytes.now reply.old)
        × (reply.new ≡ reply_to s.old bytes.now reply.old)) }
{
    if s.len() < ROUND_LEN {
        return Err(Refusal::Argument);
    }
    deliver_in(s, bytes, reply)
}

// The report for a learner, over the known messages of the round in the front of s, where the bytes are enough for one.
fn report_in(s: &[u8], learner: u8) -> Result<Report, Refusal>
    requires { round_len ≤ length s.now }
    ensures { result ≡ reported (round_in s.now) learner }
{
    if !fits(s) {
        return Err(Refusal::Argument);
    }
    let number = usize::from(learner);
    if learners_of(s) <= number {
        return Err(Refusal::Argument);
    }
    let graph = graph_in(s);
    Ok(verdict_for(s, &graph, number))
}

// The report for a learner, over the known messages of the round in the front of s.
pub fn report(s: &[u8], learner: u8) -> Result<Report, Refusal>
    ensures { result ≡ report_answer s.now learner }
{
    if s.len() < ROUND_LEN {
        return Err(Refusal::Argument);
    }
    report_in(s, learner)
}
