// A round for callers in C, who keep it as bytes in a buffer of their own. A call answers 0 or, for a delivery
// with a reply, 256 and its length; or the number of the row that turns it down.
ghost use Rattle.std.specs.Prelude.{◌≡◌, ◌≤◌, length};
ghost use Rattle.message.specs.Writer.{fronted};
ghost use Rattle.round.specs.Answers.{page};
ghost use Rattle.engine.specs.Calls.{open_to, deliver_to, reply_to};
ghost use Rattle.hpaxos.specs.Round.{open_answer, deliver_answer, page_bytes, page_len, report_answer, report_to};

use base::refusal::Refusal;
use base::{put8, put64};
use round::Report;

// What is reported,
const UNDECIDED: u8 = 0;

const DECIDED: u8 = 1;

const SPLIT: u8 = 2;

// in one byte, and two ballots behind it.
const REPORT_LEN: usize = 17;

const FIRST_BALLOT: usize = 1;

const SECOND_BALLOT: usize = 9;

// What a delivery answers that is accepted: with no reply, and with one, of which the length is added.
const NO_REPLY: u32 = 0;

const REPLY: u32 = 256;

// Opens a round at the front of a lent buffer.
#[unsafe(no_mangle)]
pub extern "C" fn hpaxos_open(
    file: &[u8],
    house: u16,
    bay: u16,
    acceptor: u32,
    round: &mut [u8],
) -> u32
    ensures { (result ≡ open_answer file.now house bay acceptor round.old) × (round.new ≡ open_to file.now house bay acceptor round.old) }
{
    match engine::open(file, house, bay, acceptor, round) {
        Ok(()) => 0,
        Err(e) => u32::from(e),
    }
}

// Delivers a message to the round at the front of a lent buffer; a reply goes to the front of another.
#[unsafe(no_mangle)]
pub extern "C" fn hpaxos_deliver(round: &mut [u8], message: &[u8], reply: &mut [u8]) -> u32
    ensures { (result ≡ deliver_answer round.old message.now reply.old) × (round.new ≡ deliver_to round.old message.now reply.old) × (reply.new ≡ reply_to round.old message.now reply.old) }
{
    match engine::deliver(round, message, reply) {
        Ok(None) => NO_REPLY,
        Ok(Some(len)) => REPLY + len as u32,
        Err(e) => u32::from(e),
    }
}

fn put_page(out: &mut [u8], state: u8, least: u64, other: u64)
    requires { page_len ≤ length out.old }
    ensures { out.new ≡ fronted (page_bytes (page state least other)) out.old }
{
    put8(out, 0, state);
    put64(out, FIRST_BALLOT, least);
    put64(out, SECOND_BALLOT, other);
}

// The report for a learner, written to the front of a lent buffer.
#[unsafe(no_mangle)]
pub extern "C" fn hpaxos_report(round: &[u8], learner: u8, out: &mut [u8]) -> u32
    ensures { (result ≡ report_answer round.now learner out.old) × (out.new ≡ report_to round.now learner out.old) }
{
    if out.len() < REPORT_LEN {
        return u32::from(Refusal::Argument);
    }
    match engine::report(round, learner) {
        Ok(Report::Undecided) => put_page(out, UNDECIDED, 0, 0),
        Ok(Report::Decided(x)) => put_page(out, DECIDED, x, 0),
        Ok(Report::Split(x, y)) => put_page(out, SPLIT, x, y),
        Err(e) => return u32::from(e),
    }
    0
}
