// Rows 8 to 16 of the table "When a call is turned down", for a message that was read. The round stands in the bytes s. What was found for the
// message's ids is handed in, so that no id is looked up among the held ones twice.
ghost use Rattle.std.specs.Prelude.{◌≡◌, ◌≤◌, IfOk, length};
ghost use Rattle.protocol.specs.Ids.{Id};
ghost use Rattle.meaning.specs.Inside.Notes.{Judged};
ghost use Rattle.round.specs.Limits.{max_held};
ghost use Rattle.round.specs.Holdings.{graph_of, place_of};
ghost use Rattle.round.specs.Rows.{other_round, foreign, is_known_id, reference_ids, previous_id, lacks, unchained, message_of, full};
ghost use Rattle.roundbytes.specs.Layout.{round_len, round_in};
ghost use Rattle.admission.specs.Inside.Finding.{Bounded, Listed, Inside, place_found};
ghost use Rattle.admission.specs.Inside.Votes.{refers_to, record_of, Resolves};
ghost use Rattle.judging.specs.Inside.Standing.{AtHand};
ghost use Rattle.judging.specs.Inside.Referring.{Referring};
ghost use Rattle.order.specs.Inside.Rows.{row_of, head_row, chain_row};
ghost use Rattle.judging.specs.Inside.Turning.{sound_row};

use admission::rows::{Vote, is_awaited, is_known, previous_of, resolve};
use base::refusal::Refusal;
use derive::new::judge;
use graph::Graph;
use meaning::Note;
use message::AcceptorMessage;
use notes::Notes;
use order::{is_foreign, is_full, is_other};
use roundbytes::readers::{acceptors_of, bay_of, held_of, house_of, own_of};

// Row 8.
pub fn of_another(s: &[u8], house: u16, bay: u16) -> bool
    requires { round_len ≤ length s.now }
    ensures { result ≡ other_round (round_in s.now) house bay }
{
    let own_house = house_of(s);
    let own_bay = bay_of(s);
    is_other(house, bay, own_house, own_bay)
}

// Rows 8 to 10 of an acceptor message, by what was found for its id.
pub fn head_row(s: &[u8], m: AcceptorMessage, found: Option<usize>) -> Result<(), Refusal>
    requires { Bounded s.now × Inside (round_in s.now) found }
    ensures { (i : Id) → place_found found ≡ place_of (round_in s.now) i
        → row_of result ≡ head_row (other_round (round_in s.now) m.house m.bay) (foreign (round_in s.now) m.signer) (is_known_id (round_in s.now) i) }
{
    let other = of_another(s, m.house, m.bay);
    let foreign = is_foreign(acceptors_of(s), m.signer);
    let known = is_known(s, found);
    order::rows::head_row(other, foreign, known)
}

// Rows 11 and 12 of an acceptor message that was read from these bytes; where neither applies, what the message's ids name.
pub fn chain_row(s: &[u8], bytes: &[u8], m: AcceptorMessage) -> Result<Vote, Refusal>
    requires { Bounded s.now × Listed bytes.now m }
    ensures ruled { row_of result ≡ chain_row (lacks (round_in s.now) (reference_ids bytes.now m)) (unchained (round_in s.now) m.signer (reference_ids bytes.now m) (previous_id bytes.now m)) }
    ensures resolved { IfOk result (λ vote. Resolves (round_in s.now) m.signer (previous_id bytes.now m) (reference_ids bytes.now m) vote) }
    ensures counted { IfOk result (λ vote. length (refers_to vote) ≡ m.count) }
    ensures whole { IfOk result (λ vote. (vote.count ≡ m.count) × (length vote.places ≡ max_held)) }
{
    let references = resolve(s, bytes, m);
    let back = previous_of(s, bytes, m);
    let (places, previous) = order::rows::chain_row(references, back)?;
    Ok(Vote::new(m.signer, previous, &places))
}

// Row 16, by what was found for the message's id.
pub fn lacks_room(s: &[u8], found: Option<usize>) -> bool
    requires { Bounded s.now × Inside (round_in s.now) found }
    ensures { (i : Id) → place_found found ≡ place_of (round_in s.now) i → result ≡ full (round_in s.now) i }
{
    let awaited = is_awaited(s, found);
    is_full(held_of(s) as u8, own_of(s), awaited)
}

// An acceptor message that the round would hold as this vote, judged by what it holds.
pub fn judge_vote(s: &[u8], graph: &Graph, notes: &Notes, id: &[u8], vote: &Vote) -> Note
    requires { AtHand s.now graph.now notes.now × Referring (round_in s.now) vote.now }
    ensures { Judged (graph_of (round_in s.now)) (message_of (round_in s.now) (record_of (round_in s.now) id.now vote.now)) result }
{
    judge(s, graph, notes, id, vote.previous, vote.places())
}

// Rows 14 to 16 of such a message, by what was found for its id.
pub fn sound_row(
    s: &[u8],
    graph: &Graph,
    notes: &Notes,
    id: &[u8],
    vote: &Vote,
    found: Option<usize>,
) -> Result<(), Refusal>
    requires { AtHand s.now graph.now notes.now × (Referring (round_in s.now) vote.now × (place_found found ≡ place_of (round_in s.now) id.now)) }
    ensures { row_of result ≡ sound_row (round_in s.now) id.now (message_of (round_in s.now) (record_of (round_in s.now) id.now vote.now)) }
{
    let note = judge_vote(s, graph, notes, id, vote);
    let lacks = lacks_room(s, found);
    order::rows::form_row(note.formed1b, note.formed2a, lacks)
}
