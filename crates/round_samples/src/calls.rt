// The three calls, with their answers as numbers that a sample can name.
ghost use Rattle.std.specs.Prelude.{◌≡◌, length};
ghost use Rattle.base.specs.Refusals.{number_of};
ghost use Rattle.base.specs.declared.refusal.Refusal.TheVariants.{Argument};
ghost use Rattle.round.specs.Answers.{opening_number};
ghost use Rattle.roundbytes.specs.Layout.{round_len};
ghost use Rattle.engine.specs.Calls.{open_answer, open_to, deliver_answer, deliver_to, reply_to, report_answer};
ghost use Rattle.round_samples.specs.Calls.{blanks, zeros, outcome_in64, verdict_of, left_by, differing_in};

use base::refusal::Refusal;
use engine::{deliver, open, report};
use round::Report;
use roundbytes::ROUND_LEN;

// What every byte of a reply buffer is before a delivery.
const BLANK: u8 = 9;

// A round as the calls keep it.
#[derive(Clone, Copy)]
pub struct Round {
    pub bytes: [u8; ROUND_LEN],
}

// What a delivery gave: 0 for a message accepted with no reply, 256 and the reply's length, or the number that turns it down.
#[derive(Clone, Copy)]
pub struct Step {
    pub number: u64,
    pub round: Round,
    pub reply: [u8; 4139],
}

// What a report gave: 0 or the number that turns it down, and its page: 0 undecided, 1 decided, 2 split, and its ballots, 0 where it has none.
#[derive(Clone, Copy)]
pub struct Verdict {
    pub number: u64,
    pub state: u64,
    pub least: u64,
    pub other: u64,
}

// A reply buffer of N bytes. 4139 is the least length that is enough.
fn blank<const N: usize>() -> [u8; N]
    ensures { result ≡ blanks N }
{
    [BLANK; N]
}

// A round's buffer before it is opened.
fn fresh() -> [u8; ROUND_LEN]
    ensures { result ≡ zeros round_len }
{
    [0u8; ROUND_LEN]
}

// The number of a delivery's answer.
fn outcome_number(outcome: Result<Option<usize>, Refusal>) -> u64
    ensures { result ≡ outcome_in64 outcome }
{
    match outcome {
        Ok(reply) => match reply {
            None => 0,
            Some(n) => 256u64.wrapping_add(n as u64),
        },
        Err(r) => u64::from(u32::from(r)),
    }
}

// Delivers bytes to a round.
pub fn given(round: Round, bytes: &[u8]) -> Step
    ensures { (result.number ≡ outcome_in64 (deliver_answer round.bytes bytes.now (blanks 4139)))
        × ((result.round.bytes ≡ deliver_to round.bytes bytes.now (blanks 4139))
        × (result.reply ≡ reply_to round.bytes bytes.now (blanks 4139))) }
{
    let mut reply = blank::<4139>();
    let mut next = round.bytes;
    let outcome = deliver(&mut next, bytes, &mut reply);
    Step {
        number: outcome_number(outcome),
        round: Round { bytes: next },
        reply,
    }
}

// The round after a delivery.
pub fn after(round: Round, bytes: &[u8]) -> Round
    ensures { result.bytes ≡ deliver_to round.bytes bytes.now (blanks 4139) }
{
    let s = given(round, bytes);
    s.round
}

// What a delivery gives with a reply buffer that is one byte too short; it would be 9,999 if a byte of it were written.
pub fn cramped(round: Round, bytes: &[u8]) -> u64
    ensures { result ≡ number_of Argument }
{
    let mut reply = blank::<4138>();
    let mut next = round.bytes;
    let outcome = deliver(&mut next, bytes, &mut reply);
    if differing(&reply, b"") != 0 {
        return 9999;
    }
    outcome_number(outcome)
}

// What byte i of a reply buffer is after this reply: the reply's own, and behind it what was there.
fn left_by(reply: &[u8], i: usize) -> u8
    ensures { result ≡ left_by reply.now i }
{
    if i < reply.len() {
        return reply[i];
    }
    BLANK
}

// How many bytes of a reply buffer are not as this reply leaves them.
pub fn differing(buffer: &[u8], reply: &[u8]) -> u64
    ensures { result ≡ differing_in (length buffer.now) buffer.now reply.now }
{
    let mut n: u64 = 0;
    for i in 0..buffer.len() {
        if buffer[i] != left_by(reply, i) {
            n += 1;
        }
    }
    n
}

// The round for house 1 and bay 12.
pub fn start(file: &[u8], own: u32) -> Round
    ensures { result.bytes ≡ open_to file.now 1 12 own (zeros round_len) }
{
    let mut bytes = fresh();
    let _answer = open(file, 1, 12, own, &mut bytes);
    Round { bytes }
}

// 0 for a round that opens, or the number that turns it down.
pub fn opening(file: &[u8], own: u32) -> u64
    ensures { result ≡ opening_number (open_answer file.now 1 12 own (zeros round_len)) }
{
    let mut bytes = fresh();
    match open(file, 1, 12, own, &mut bytes) {
        Ok(()) => 0,
        Err(r) => u64::from(u32::from(r)),
    }
}

// The report for a learner.
pub fn told(round: Round, learner: u8) -> Verdict
    ensures { result ≡ verdict_of (report_answer round.bytes learner) }
{
    let bytes = round.bytes;
    match report(&bytes, learner) {
        Ok(Report::Undecided) => Verdict {
            number: 0,
            state: 0,
            least: 0,
            other: 0,
        },
        Ok(Report::Decided(ballot)) => Verdict {
            number: 0,
            state: 1,
            least: ballot,
            other: 0,
        },
        Ok(Report::Split(ballot, other)) => Verdict {
            number: 0,
            state: 2,
            least: ballot,
            other,
        },
        Err(r) => Verdict {
            number: u64::from(u32::from(r)),
            state: 0,
            least: 0,
            other: 0,
        },
    }
}
