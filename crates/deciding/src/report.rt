// The report for a learner, from the notes of the places of a round.
ghost use Rattle.std.specs.Prelude.{◌≡◌, ℕ, ◌≤◌, ◌<◌, length, get_or};
ghost use Rattle.base.specs.Sets.{has};
ghost use Rattle.graph.specs.LearnerGraph.{is_quorum};
ghost use Rattle.protocol.specs.Report.{report};
ghost use Rattle.round.specs.Holdings.{graph_of, table_of, known_messages};
ghost use Rattle.round.specs.Report.{told};
ghost use Rattle.roundbytes.specs.Layout.{round_len, round_in};
ghost use Rattle.notes.specs.Inside.Layout.{word_notes, byte_notes};
ghost use Rattle.notes.specs.Inside.Asking.{Covering};
ghost use Rattle.meaning.specs.Inside.Notes.{AllNoted};
ghost use Rattle.deciding.specs.Inside.Deciding.{is_known2a, is_voter, voters_for, is_deciding, is_lower, lowered, least_of};
ghost use Rattle.deciding.specs.Inside.Asking.{Reporting};
ghost use Rattle.round.specs.Limits.{max_held};
ghost use Rattle.graph.specs.Limits.{max_learners, mask_bits};

use base::value;
use graph::{Graph, Mask};
use notes::{Notes, SECOND};
use places::Places;
use places::sets::{has_learner, with_acceptor};
use round::Report;
use roundbytes::readers::{held_of, known_at, signer_at};

// Whether place j holds a known 2a.
fn is_known_2a(s: &[u8], notes: &Notes, j: usize) -> bool
    requires { (round_len ≤ length s.now) × (j < max_held) }
    ensures { result ≡ is_known2a (round_in s.now) (byte_notes notes.now.octets) j }
{
    (known_at(s, j) != 0) & (notes.form_at(j) == SECOND)
}

// Whether place j holds a known 2a of ballot x with learner a.
fn is_voter(s: &[u8], notes: &Notes, a: usize, x: u64, j: usize) -> bool
    requires { (round_len ≤ length s.now) × ((a < max_learners) × (j < max_held)) }
    ensures { result ≡ is_voter (round_in s.now) (word_notes notes.now.words) (byte_notes notes.now.octets) a x j }
{
    is_known_2a(s, notes, j) & (notes.top_at(j) == x) & has_learner(notes.learners_at(j), a)
}

// The signers of such places. The walk has each of them.
fn voters(s: &[u8], notes: &Notes, a: usize, x: u64, walk: Places) -> Mask
    requires { (round_len ≤ length s.now) × ((a < max_learners)
        × Covering (round_in s.now).held (is_voter (round_in s.now) (word_notes notes.now.words) (byte_notes notes.now.octets) a x) walk) }
    ensures { (p : ℕ) → p < mask_bits → has result p ≡ voters_for (round_in s.now) (word_notes notes.now.words) (byte_notes notes.now.octets) a x p }
{
    let n = held_of(s);
    let mut mask: Mask = 0;
    for j in walk.below(n) {
        let on = is_voter(s, notes, a, x, j);
        mask = with_acceptor(mask, signer_at(s, j), on);
    }
    mask
}

// Whether they are a quorum of a.
fn is_decided(s: &[u8], graph: &Graph, notes: &Notes, a: usize, x: u64) -> bool
    requires { Reporting s.now graph.now notes.now × (a < max_learners) }
    ensures { result ≡ is_quorum (graph_of (round_in s.now)) a (voters_for (round_in s.now) (word_notes notes.now.words) (byte_notes notes.now.octets) a x) }
{
    let walk = notes.peers_of(notes.votes_in(), x);
    let set = voters(s, notes, a, x, walk);
    graph.is_quorum(a, set)
}

// Whether place j holds a known 2a of a lower ballot than the least so far, and of another value than `but`, where there is one.
fn is_lower(s: &[u8], notes: &Notes, least: Option<u64>, but: Option<u64>, j: usize) -> bool
    requires { (round_len ≤ length s.now) × (j < max_held) }
    ensures { result ≡ is_lower (round_in s.now) (word_notes notes.now.words) (byte_notes notes.now.octets) least but j }
{
    let x = notes.top_at(j);
    let under = match least {
        Some(y) => x < y,
        None => true,
    };
    is_known_2a(s, notes, j) & but.is_none_or(|v| value(x) != v) & under
}

// The least so far, or the ballot of place j where that one decides and is lower. The quorum is asked last: it takes a walk over the votes.
fn lower(
    s: &[u8],
    graph: &Graph,
    notes: &Notes,
    a: usize,
    but: Option<u64>,
    least: Option<u64>,
    j: usize,
) -> Option<u64>
    requires { Reporting s.now graph.now notes.now × ((a < max_learners) × (j < max_held)) }
    ensures { result ≡ lowered least (is_deciding (round_in s.now) (word_notes notes.now.words) (byte_notes notes.now.octets) a but j) (get_or (word_notes notes.now.words).tops j 0) }
{
    if !is_lower(s, notes, least, but, j) {
        return least;
    }
    let x = notes.top_at(j);
    if is_decided(s, graph, notes, a, x) {
        return Some(x);
    }
    least
}

// The least ballot of a known 2a that decides, of those of another value than `but`, where there is one.
fn least_deciding(s: &[u8], graph: &Graph, notes: &Notes, a: usize, but: Option<u64>) -> Option<u64>
    requires { Reporting s.now graph.now notes.now × (a < max_learners) }
    ensures { result ≡ least_of (is_deciding (round_in s.now) (word_notes notes.now.words) (byte_notes notes.now.octets) a but) (λ j. get_or (word_notes notes.now.words).tops j 0) (round_in s.now).held }
{
    let n = held_of(s);
    let mut least = None;
    for j in notes.votes_in().below(n) {
        least = lower(s, graph, notes, a, but, least, j);
    }
    least
}

// The report for learner a over the known messages of the round.
pub fn report_for(s: &[u8], graph: &Graph, notes: &Notes, a: usize) -> Report
    requires { Reporting s.now graph.now notes.now × ((a < (round_in s.now).graph.learners) × ((round_in s.now).graph.learners ≤ max_learners)) }
    ensures { AllNoted (graph_of (round_in s.now)) (table_of (round_in s.now)) (round_in s.now) (word_notes notes.now.words) (byte_notes notes.now.octets) → result ≡ told (report (graph_of (round_in s.now)) (known_messages (round_in s.now)) a) }
{
    let Some(first) = least_deciding(s, graph, notes, a, None) else {
        return Report::Undecided;
    };
    match least_deciding(s, graph, notes, a, Some(value(first))) {
        Some(second) => Report::Split(first, second),
        None => Report::Decided(first),
    }
}
