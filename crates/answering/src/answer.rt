// After acceptance: the reply to a message that the round holds, sent or not. The round stands in the bytes s.
ghost use Rattle.std.specs.Prelude.{◌≡◌, ◌≤◌, ◌<◌, length, set, replicate};
ghost use Rattle.digest.specs.Sha256.{sha256};
ghost use Rattle.round.specs.Limits.{max_held, listening};
ghost use Rattle.round.specs.Rows.{message_of};
ghost use Rattle.round.specs.Reply.{reply_bytes, is_sent};
ghost use Rattle.round.specs.Delivery.{hold, with_recent, recent_with, answered, processed};
ghost use Rattle.roundbytes.specs.Layout.{round_len, round_in};
ghost use Rattle.roundbytes.specs.Inside.Keeping.{Kept};
ghost use Rattle.admission.specs.Inside.Votes.{record_of};
ghost use Rattle.holding.specs.Inside.Storing.{Free};
ghost use Rattle.derive.specs.Inside.Complete.{WorkedOut};
ghost use Rattle.judging.specs.Inside.Standing.{Passes, AtHand};
ghost use Rattle.judging.specs.Inside.Referring.{Referring};
ghost use Rattle.answering.specs.Inside.Giving.{Gives, left, accepts, replies, Answerable, Begun};

use admission::rows::Vote;
use base::put_all;
use base::refusal::Refusal;
use derive::pass::{work_more, work_out};
use digest::sha256;
use graph::Graph;
use holding::hold::{hold_vote, joined, sent};
use holding::reply::form_reply;
use judging::rows::judge_vote;
use message::layout::MAX_LEN;
use notes::Notes;
use round::LISTENING;
use roundbytes::graph_in;
use roundbytes::readers::{held_of, own_of};

// Nothing is sent: the message at place p joins recent, unless it is a proposal.
fn join(s: &mut [u8], p: usize) -> Result<Option<usize>, Refusal>
    requires { (round_len ≤ length s.old) × (p < max_held) }
    ensures given { left result s.new ≡ accepts (with_recent (round_in s.old) (round_in s.old).last (recent_with (round_in s.old) p)) }
    ensures kept { Kept s.old s.new }
{
    joined(s, p);
    Ok(None)
}

// z is sent: held as awaiting its return, it is the last sent message, and recent is that one alone.
fn send(s: &mut [u8], id: &[u8], vote: &Vote, len: usize) -> Result<Option<usize>, Refusal>
    requires { Free s.old id.now × Referring (round_in s.old) vote.now }
    ensures given { left result s.new ≡ replies len (with_recent (hold (round_in s.old) (record_of (round_in s.old) id.now vote.now) 0) (round_in s.old).held (set (replicate max_held 0) (round_in s.old).held 1)) }
    ensures kept { Kept s.old s.new }
{
    let place = held_of(s);
    hold_vote(s, id, vote, 0);
    sent(s, place);
    Ok(Some(len))
}

// Whether a reply with this id is well-formed.
fn is_sent(s: &[u8], graph: &Graph, notes: &Notes, id: &[u8], vote: &Vote) -> bool
    requires { AtHand s.now graph.now notes.now × Referring (round_in s.now) vote.now }
    ensures { result ≡ is_sent (round_in s.now) (message_of (round_in s.now) (record_of (round_in s.now) id.now vote.now)) }
{
    let note = judge_vote(s, graph, notes, id, vote);
    note.formed1b & note.formed2a
}

// The reply of an acceptor to the message at place p is formed; it is sent where it is well-formed.
fn answer(
    s: &mut [u8],
    graph: &Graph,
    notes: &Notes,
    p: usize,
    reply: &mut [u8],
) -> Result<Option<usize>, Refusal>
    requires { AtHand s.old graph.now notes.now × (Answerable s.old p reply.old × ((round_in s.old).own < listening)) }
    ensures given { Gives (answered sha256 (round_in s.old) p (reply_bytes (round_in s.old) p)) (left result s.new) reply.old reply.new }
    ensures kept { Kept s.old s.new }
{
    let mut scratch = [0u8; MAX_LEN];
    let z = form_reply(s, p, &mut scratch);
    let len = z.len;
    let id = sha256(&scratch[0..len]);
    if !is_sent(s, graph, notes, &id, &z.vote) {
        return join(s, p);
    }
    put_all(reply, 0, &scratch[0..len]);
    send(s, &id, &z.vote, len)
}

// The notes of all held messages, from those of the first n, which are all or all but the last.
fn note_last(s: &[u8], graph: &Graph, notes: &mut Notes, n: usize)
    requires { Passes s.now × ((graph.now ≡ (round_in s.now).graph) × Begun (round_in s.now) n notes.old) }
    ensures { WorkedOut (round_in s.now) notes.new }
{
    if held_of(s) == n {
        return;
    }
    work_more(s, graph, notes, n);
}

// What follows on the message at place p, where the first n of the held messages are worked out: a round with no acceptor number sends nothing.
pub fn process(
    s: &mut [u8],
    graph: &Graph,
    notes: &mut Notes,
    n: usize,
    p: usize,
    reply: &mut [u8],
) -> Result<Option<usize>, Refusal>
    requires { Answerable s.old p reply.old × ((graph.now ≡ (round_in s.old).graph) × Begun (round_in s.old) n notes.old) }
    ensures given { Gives (processed sha256 (round_in s.old) p) (left result s.new) reply.old reply.new }
    ensures kept { Kept s.old s.new }
{
    if LISTENING <= own_of(s) {
        return Ok(None);
    }
    note_last(s, graph, notes, n);
    answer(s, graph, notes, p, reply)
}

// The same on a proposal, for which nothing was worked out: only a round that votes makes the pass.
pub fn process_offer(s: &mut [u8], p: usize, reply: &mut [u8]) -> Result<Option<usize>, Refusal>
    requires { Answerable s.old p reply.old }
    ensures given { Gives (processed sha256 (round_in s.old) p) (left result s.new) reply.old reply.new }
    ensures kept { Kept s.old s.new }
{
    if LISTENING <= own_of(s) {
        return Ok(None);
    }
    let graph = graph_in(s);
    let mut notes = Notes::new();
    work_out(s, &graph, &mut notes);
    answer(s, &graph, &notes, p, reply)
}
