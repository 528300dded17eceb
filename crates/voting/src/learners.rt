// Buried, fresh and the learners of a 2a.
ghost use Rattle.std.specs.Prelude.{◌≡◌, not, ◌&&◌, ◌||◌, ℕ, ◌≤◌, ◌<◌, eqb, ltb, length, get_or};
ghost use Rattle.base.specs.Tests.{any, below};
ghost use Rattle.base.specs.Sets.{has};
ghost use Rattle.graph.specs.LearnerGraph.{is_quorum, safe_without};
ghost use Rattle.graph.specs.Memory.{view_of};
ghost use Rattle.places.specs.Inside.PlaceSets.{Covers};
ghost use Rattle.roundbytes.specs.Layout.{round_len, round_in};
ghost use Rattle.notes.specs.Inside.Layout.{word_notes, byte_notes};
ghost use Rattle.voting.specs.Inside.Votes.{is_vote, vote_ballot, raised, peaks_of, is_buried, is_opposed, is_rival, is_barred, is_backer, backed_by};
ghost use Rattle.voting.specs.Inside.Asking.{Barring, Backing};
ghost use Rattle.notes.specs.Inside.Asking.{Covering};
ghost use Rattle.round.specs.Limits.{max_held};
ghost use Rattle.graph.specs.Limits.{max_learners, mask_bits};

use crate::Peaks;
use base::value;
use graph::{Graph, MAX_LEARNERS, Mask};
use notes::{FIRST, Notes, SECOND, Walks};
use places::Places;
use places::sets::{has_learner, with_acceptor, with_learner};
use roundbytes::readers::signer_at;

// ---- votes
// Whether place j is in the set and holds a 2a with learner b.
fn is_vote(notes: &Notes, set: Places, b: usize, j: usize) -> bool
    requires { (b < max_learners) × (j < max_held) }
    ensures { result ≡ is_vote (byte_notes notes.now.octets) set.low set.high b j }
{
    set.has(j) & (notes.form_at(j) == SECOND) & has_learner(notes.learners_at(j), b)
}

// Its ballot, or 0.
fn vote_ballot(notes: &Notes, set: Places, b: usize, j: usize) -> u64
    requires { (b < max_learners) × (j < max_held) }
    ensures { result ≡ vote_ballot (word_notes notes.now.words) (byte_notes notes.now.octets) set.low set.high b j }
{
    if is_vote(notes, set, b, j) {
        notes.top_at(j)
    } else {
        0
    }
}

// The peaks of some ballots and one more.
fn raise(p: Peaks, x: u64) -> Peaks
    ensures { result ≡ raised p x }
{
    let best = p.best;
    let other = p.other;
    if best < x {
        if value(x) == value(best) {
            return Peaks { best: x, other };
        }
        return Peaks {
            best: x,
            other: best,
        };
    }
    if (other < x) & (value(x) != value(best)) {
        return Peaks { best, other: x };
    }
    Peaks { best, other }
}

// The peaks of the ballots of the votes for b among the first n places. The walk has each place of such a vote.
fn peaks(notes: &Notes, n: usize, set: Places, b: usize, walk: Places) -> Peaks
    requires { (b < max_learners) × Covering n (is_vote (byte_notes notes.now.octets) set.low set.high b) walk }
    ensures { result ≡ peaks_of (vote_ballot (word_notes notes.now.words) (byte_notes notes.now.octets) set.low set.high b) n }
{
    let mut p = Peaks { best: 0, other: 0 };
    for j in walk.below(n) {
        let x = vote_ballot(notes, set, b, j);
        p = raise(p, x);
    }
    p
}

// Whether a higher ballot of another value is among those with these peaks.
fn is_buried(p: Peaks, x: u64) -> bool
    ensures { result ≡ is_buried p.best p.other x }
{
    let best = p.best;
    let other = p.other;
    ((x < best) & (value(best) != value(x))) | ((x < other) & (value(other) != value(x)))
}

// Whether place j holds a vote for b of this signer, of another value, that is not buried.
fn is_opposed(
    s: &[u8],
    notes: &Notes,
    set: Places,
    b: usize,
    signer: u8,
    v: u64,
    p: Peaks,
    j: usize,
) -> bool
    requires { (round_len ≤ length s.now) × ((b < max_learners) × (j < max_held)) }
    ensures { result ≡ is_opposed (round_in s.now) (word_notes notes.now.words) (byte_notes notes.now.octets) set.low set.high b signer v p j }
{
    let x = notes.top_at(j);
    is_vote(notes, set, b, j) & (signer_at(s, j) == signer) & (value(x) != v) & !is_buried(p, x)
}

// Whether there is such a place among the first n. The walk has each of them.
fn is_barred(
    s: &[u8],
    notes: &Notes,
    n: usize,
    set: Places,
    b: usize,
    signer: u8,
    v: u64,
    p: Peaks,
    walk: Places,
) -> bool
    requires { (round_len ≤ length s.now) × ((b < max_learners)
        × Covering n (is_opposed (round_in s.now) (word_notes notes.now.words) (byte_notes notes.now.octets) set.low set.high b signer v p) walk) }
    ensures { result ≡ any (is_opposed (round_in s.now) (word_notes notes.now.words) (byte_notes notes.now.octets) set.low set.high b signer v p) (below n) }
{
    let mut found = false;
    for j in walk.below(n) {
        found = is_opposed(s, notes, set, b, signer, v, p, j) | found;
    }
    found
}

// The learners of the 2a at place j, if it is in the set, of this signer and of another value than v.
fn rivals_at(s: &[u8], notes: &Notes, set: Places, signer: u8, v: u64, j: usize) -> u8
    requires { (round_len ≤ length s.now) × (j < max_held) }
    ensures { (b : ℕ) → has result b ≡ is_rival (round_in s.now) (word_notes notes.now.words) (byte_notes notes.now.octets) set.low set.high signer v b j }
{
    if (notes.form_at(j) != SECOND) | (signer_at(s, j) != signer) {
        return 0;
    }
    if set.has(j) & (value(notes.top_at(j)) != v) {
        notes.learners_at(j)
    } else {
        0
    }
}

// The learners of such places among the first n: no other learner can be barred. The walk has each of these places.
fn rivals(s: &[u8], notes: &Notes, n: usize, set: Places, signer: u8, v: u64, walk: Places) -> u8
    requires { (round_len ≤ length s.now) × ((n ≤ max_held)
        × ((b : ℕ) → Covers n (is_rival (round_in s.now) (word_notes notes.now.words) (byte_notes notes.now.octets) set.low set.high signer v b) walk.low walk.high)) }
    ensures { (b : ℕ) → has result b ≡ any (is_rival (round_in s.now) (word_notes notes.now.words) (byte_notes notes.now.octets) set.low set.high signer v b) (below n) }
{
    let mut mask: u8 = 0;
    for j in walk.below(n) {
        mask = rivals_at(s, notes, set, signer, v, j) | mask;
    }
    mask
}

// Whether learner b is barred. The places are gone through only where b is among the learners of rivals.
fn bars(
    s: &[u8],
    notes: &Notes,
    n: usize,
    set: Places,
    signer: u8,
    v: u64,
    walks: Walks,
    among: u8,
    b: usize,
) -> bool
    requires { Barring s.now notes.now n set signer v walks × ((b < max_learners)
        × ((q : ℕ) → has among q ≡ any (is_rival (round_in s.now) (word_notes notes.now.words) (byte_notes notes.now.octets) set.low set.high signer v q) (below n))) }
    ensures { result ≡ is_barred (round_in s.now) (word_notes notes.now.words) (byte_notes notes.now.octets) n set.low set.high signer v b }
{
    if !has_learner(among, b) {
        return false;
    }
    let votes = walks.votes;
    let rival_votes = walks.rivals;
    let p = peaks(notes, n, set, b, votes);
    is_barred(s, notes, n, set, b, signer, v, p, rival_votes)
}

// Those of the first l learners that are barred: for each of them there is an opposed place. Where l is 0, as for a 2a, no place is gone through.
pub fn opposing(
    s: &[u8],
    notes: &Notes,
    n: usize,
    l: usize,
    set: Places,
    signer: u8,
    v: u64,
    walks: Walks,
) -> u8
    requires { Barring s.now notes.now n set signer v walks × (l ≤ max_learners) }
    ensures { (q : ℕ) → has result q ≡ any (λ b. is_barred (round_in s.now) (word_notes notes.now.words) (byte_notes notes.now.octets) n set.low set.high signer v b && eqb b q) (below l) }
{
    if l == 0 {
        return 0;
    }
    let rival_votes = walks.rivals;
    let among = rivals(s, notes, n, set, signer, v, rival_votes);
    if among == 0 {
        return 0;
    }
    let mut mask: u8 = 0;
    for b in 0..l {
        let on = bars(s, notes, n, set, signer, v, walks, among, b);
        mask = with_learner(mask, b, on);
    }
    mask
}

// Whether b is among them and connected with a.
fn is_against(graph: &Graph, a: usize, b: usize, caught: Mask, against: u8) -> bool
    requires { (a < max_learners) × (b < max_learners) }
    ensures { result ≡ (safe_without (view_of graph.now) a b (has caught) && has against b) }
{
    has_learner(against, b) && graph.safe_without(a, b, caught)
}

// Whether there is such a learner among the first l.
fn is_stale(graph: &Graph, l: usize, a: usize, caught: Mask, against: u8) -> bool
    requires { (a < max_learners) × (l ≤ max_learners) }
    ensures { result ≡ any (λ b. safe_without (view_of graph.now) a b (has caught) && has against b) (below l) }
{
    let mut found = false;
    for b in 0..l {
        found = is_against(graph, a, b, caught, against) | found;
    }
    found
}

// The first k learners.
fn first_learners(k: usize) -> u8
    requires { k ≤ max_learners }
    ensures { (q : ℕ) → has result q ≡ ltb q k }
{
    ((1u32 << k) - 1) as u8
}

// The first k learners for which there is none among the first l: a 1b is fresh for them. Most often no learner is barred, and then it is fresh for
// all.
pub fn fresh_for(graph: &Graph, l: usize, k: usize, caught: Mask, against: u8) -> u8
    requires { (k ≤ max_learners) × (l ≤ max_learners) }
    ensures { (q : ℕ) → has result q
        ≡ any (λ a. not (any (λ b. safe_without (view_of graph.now) a b (has caught) && has against b) (below l)) && eqb a q) (below k) }
{
    if against == 0 {
        return first_learners(k);
    }
    let mut mask: u8 = 0;
    for a in 0..k {
        let on = !is_stale(graph, l, a, caught, against);
        mask = with_learner(mask, a, on);
    }
    mask
}

// ---- the learners of a 2a
// The learners for which the 1b at place j is fresh, if it is in the set and of this ballot.
fn backed_at(notes: &Notes, set: Places, ballot: u64, j: usize) -> u8
    requires { j < max_held }
    ensures { (a : ℕ) → has result a ≡ is_backer (word_notes notes.now.words) (byte_notes notes.now.octets) set.low set.high a ballot j }
{
    if (notes.form_at(j) != FIRST) | (notes.top_at(j) != ballot) {
        return 0;
    }
    if set.has(j) { notes.fresh_at(j) } else { 0 }
}

// Acceptor p put into the sets of those of the first k learners that are in `to`.
fn put_backer(sets: &mut [Mask], k: usize, to: u8, p: u8)
    requires { (k ≤ max_learners) × (length sets.old ≡ max_learners) }
    ensures { (a q : ℕ) → a < k → q < mask_bits → has (get_or sets.new a 0) q ≡ ((has to a && eqb p q) || has (get_or sets.old a 0) q) }
{
    if to == 0 {
        return;
    }
    for a in 0..k {
        let on = has_learner(to, a);
        let set = with_acceptor(sets[a], p, on);
        sets[a] = set;
    }
}

// For each of the first k learners, the signers of the 1bs of this ballot that are fresh for it, in the set and among the first n places.
// The walk has the places of all these 1bs.
fn backers(
    s: &[u8],
    notes: &Notes,
    k: usize,
    n: usize,
    set: Places,
    ballot: u64,
    walk: Places,
) -> [Mask; MAX_LEARNERS]
    requires { Backing s.now notes.now n set ballot walk × (k ≤ max_learners) }
    ensures { (length result ≡ max_learners) × ((a p : ℕ) → a < k → p < mask_bits → has (get_or result a 0) p ≡ backed_by (round_in s.now) (word_notes notes.now.words) (byte_notes notes.now.octets) n set.low set.high ballot a p) }
{
    let mut sets = [0u32; MAX_LEARNERS];
    for j in walk.below(n) {
        let to = backed_at(notes, set, ballot, j);
        put_backer(&mut sets, k, to, signer_at(s, j));
    }
    sets
}

// The first k learners for which they are a quorum: those of a 2a. Where k is 0, no place is gone through.
pub fn learners_for(
    s: &[u8],
    graph: &Graph,
    notes: &Notes,
    k: usize,
    n: usize,
    set: Places,
    ballot: u64,
    walk: Places,
) -> u8
    requires { (graph.now.acceptors ≤ mask_bits) × (Backing s.now notes.now n set ballot walk × (k ≤ max_learners)) }
    ensures { (q : ℕ) → has result q ≡ any (λ a. is_quorum (view_of graph.now) a (backed_by (round_in s.now) (word_notes notes.now.words) (byte_notes notes.now.octets) n set.low set.high ballot a) && eqb a q) (below k) }
{
    if k == 0 {
        return 0;
    }
    let sets = backers(s, notes, k, n, set, ballot, walk);
    let mut mask: u8 = 0;
    for a in 0..k {
        let on = graph.is_quorum(a, sets[a]);
        mask = with_learner(mask, a, on);
    }
    mask
}
