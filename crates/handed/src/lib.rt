// Row 17 of a round handed in: whether its counts and places lie in their tables. What is not in use is not read. This stands above the work-out pass,
// so that row 17 can ask what the held messages mean.
#![tactic(auto)]

ghost use Rattle.std.specs.Prelude.{◌≡◌, ◌||◌, ℕ, ◌*◌, ◌≤◌, ◌<◌, eqb, ltb, length};
ghost use Rattle.base.specs.Tests.{all, below};
ghost use Rattle.base.specs.Bytes.{part};
ghost use Rattle.graph.specs.Limits.{max_learners, lists};
ghost use Rattle.graph.specs.Memory.{triangle};
ghost use Rattle.round.specs.Handed.{in_use, list_fits, graph_fits, message_fits, fits};
ghost use Rattle.round.specs.Limits.{max_held, no_place};
ghost use Rattle.roundbytes.specs.Layout.{round_len, round_in};
ghost use Rattle.handed.specs.Inside.Counting.{Counted};

use admission::start::own_fits;
use graph::{LISTS, MAX_ACCEPTORS, MAX_LEARNERS, MAX_MASKS};
use message::layout::PROPOSAL;
use round::{MAX_HELD, NO_PLACE};
use roundbytes::readers::{
    acceptors_of, count_at, held_of, kind_at, last_of, learners_of, own_of, previous_at,
};
use roundbytes::{LIST_COUNTS_AT, REFERENCES_AT};

// What a byte that counts is compared with.
const MOST_ACCEPTORS: u8 = MAX_ACCEPTORS as u8;

const MOST_MASKS: u8 = MAX_MASKS as u8;

// Whether list k of a graph is in use: the quorums of a learner, or the safe sets of a pair of learners. `pairs` is how many pairs there are.
fn in_use(learners: usize, pairs: usize, k: usize) -> bool
    requires { (pairs ≡ triangle learners) × (pairs < 256) }
    ensures { result ≡ in_use learners k }
{
    k < learners || (MAX_LEARNERS <= k && k < MAX_LEARNERS + pairs)
}

// Whether list k of the graph has at most eight masks, where it is in use. `pairs` is how many pairs of learners there are. The count is asked first,
// since a round that an opening gave needs no more.
fn list_fits(s: &[u8], learners: usize, pairs: usize, k: usize) -> bool
    requires { Counted s.now learners pairs k }
    ensures { result ≡ list_fits (round_in s.now).graph k }
{
    s[LIST_COUNTS_AT + k] <= MOST_MASKS || !in_use(learners, pairs, k)
}

// Whether each list of the graph that is in use has at most eight masks.
fn lists_fit(s: &[u8]) -> bool
    requires { (round_len ≤ length s.now) × ((round_in s.now).graph.learners ≤ max_learners) }
    ensures { result ≡ all (list_fits (round_in s.now).graph) (below lists) }
{
    let learners = learners_of(s);
    let pairs = learners * (learners + 1) / 2;
    (0..LISTS).all(|k| list_fits(s, learners, pairs, k))
}

// Whether the counts of the graph lie in their tables.
fn graph_fits(s: &[u8]) -> bool
    requires { round_len ≤ length s.now }
    ensures { result ≡ graph_fits (round_in s.now).graph }
{
    let acceptors = acceptors_of(s);
    if acceptors < 1 {
        return false;
    }
    if MOST_ACCEPTORS < acceptors {
        return false;
    }
    let learners = learners_of(s);
    if learners < 1 {
        return false;
    }
    if MAX_LEARNERS < learners {
        return false;
    }
    lists_fit(s)
}

// Whether a place is none, or that of a held message.
fn place_fits(held: usize, place: u8) -> bool
    ensures { result ≡ (eqb place no_place || ltb place held) }
{
    place == NO_PLACE || usize::from(place) < held
}

// Whether the `count` references of place p are to earlier places.
fn refers_back(s: &[u8], p: usize, count: usize) -> bool
    requires { (round_len ≤ length s.now) × ((p < max_held) × (count ≤ max_held)) }
    ensures { result ≡ all (λ (j : ℕ). ltb j p) (part count (round_in s.now).references (max_held * p)) }
{
    let first = REFERENCES_AT + MAX_HELD * p;
    s[first..first + count].iter().all(|j| usize::from(*j) < p)
}

// Whether the counts and places of the message at place p lie in their tables.
fn message_fits(s: &[u8], p: usize) -> bool
    requires { (round_len ≤ length s.now) × (p < max_held) }
    ensures { result ≡ message_fits (round_in s.now) p }
{
    let count = usize::from(count_at(s, p));
    if MAX_HELD < count {
        return false;
    }
    if !place_fits(held_of(s), previous_at(s, p)) {
        return false;
    }
    if kind_at(s, p) == PROPOSAL {
        return true;
    }
    if count < 1 {
        return false;
    }
    refers_back(s, p, count)
}

// The same of each held message.
fn messages_fit(s: &[u8]) -> bool
    requires { (round_len ≤ length s.now) × ((round_in s.now).held ≤ max_held) }
    ensures { result ≡ all (message_fits (round_in s.now)) (below (round_in s.now).held) }
{
    let held = held_of(s);
    (0..held).all(|p| message_fits(s, p))
}

// Whether a round handed in can be one.
pub fn fits(s: &[u8]) -> bool
    requires { round_len ≤ length s.now }
    ensures { result ≡ fits (round_in s.now) }
{
    if !graph_fits(s) {
        return false;
    }
    if !own_fits(own_of(s) as u32, acceptors_of(s)) {
        return false;
    }
    let held = held_of(s);
    if MAX_HELD < held {
        return false;
    }
    if !place_fits(held, last_of(s)) {
        return false;
    }
    messages_fit(s)
}
