// One held message worked out from the notes of the places before it.
ghost use Rattle.std.specs.Prelude.{◌≡◌, false, suc, ◌≤◌, ◌<◌};
ghost use Rattle.base.specs.Tests.{pick};
ghost use Rattle.round.specs.Holdings.{graph_of, is_proposal_at};
ghost use Rattle.roundbytes.specs.Layout.{round_in};
ghost use Rattle.notes.specs.Inside.Layout.{first_form, second_form, word_notes, byte_notes};
ghost use Rattle.scan.specs.Inside.Arrays.{Named};
ghost use Rattle.meaning.specs.Inside.Records.{table_to};
ghost use Rattle.meaning.specs.Inside.Notes.{AllNoted, Told};
ghost use Rattle.meaning.specs.Inside.Lent.{FiledTo};

use base::value;
use graph::Graph;
use notes::{FIRST, Notes, SECOND, Worked};
use places::sets::with_acceptor;
use round::MAX_HELD;
use roundbytes::REFERENCES_AT;
use roundbytes::readers::{count_at, learners_of, previous_at, signer_at};
use scan::beneath::under;
use scan::forks::{caught_in, forking};
use voting::learners::{fresh_for, learners_for, opposing};

// So many, where `on`.
fn count_if(on: bool, l: usize) -> usize
    ensures { (result ≡ pick on l 0) × (result ≤ l) }
{
    if on { l } else { 0 }
}

// That of a 1b, or of a 2a.
fn form_of(offered: bool) -> u8
    ensures { result ≡ pick offered first_form second_form }
{
    if offered { FIRST } else { SECOND }
}

// The acceptor message at place p. Its own place is left out of those that it reaches.
pub fn step(s: &[u8], graph: &Graph, notes: &Notes, p: usize) -> Worked
    requires { FiledTo s.now graph.now notes.now p × ((p < (round_in s.now).held) × (is_proposal_at (round_in s.now) p ≡ false)) }
    ensures { Named (round_in s.now) (round_in s.now).held (byte_notes notes.now.octets) → AllNoted (graph_of (round_in s.now)) (table_to (round_in s.now) p) (round_in s.now) (word_notes notes.now.words) (byte_notes notes.now.octets) → Told (graph_of (round_in s.now)) (table_to (round_in s.now) (suc p)) p result }
{
    let from = REFERENCES_AT + MAX_HELD * p;
    let to = from + usize::from(count_at(s, p));
    let u = under(s, notes, &s[from..to]);
    let set = u.set;
    let signer = signer_at(s, p);
    let name = notes.name_at(p);
    let link = notes.name_at(usize::from(previous_at(s, p)));
    let walks = notes.walks_for(set, u.ballot, signer, link);
    let forks = forking(s, notes, p, signer, name, link, walks.forks);
    let others = caught_in(s, notes, p, set, walks.caught);
    let caught = with_acceptor(others, signer, set.meets(forks));
    let l = learners_of(s);
    let firsts = count_if(u.offered, l);
    let v = value(u.ballot);
    let against = opposing(s, notes, p, firsts, set, signer, v, walks);
    let free = fresh_for(graph, l, firsts, caught, against);
    let seconds = count_if(!u.offered, l);
    let backers = walks.backers;
    let learned = learners_for(s, graph, notes, seconds, p, set, u.ballot, backers);
    Worked {
        beneath: set,
        forks,
        ballot: u.ballot,
        learners: learned,
        fresh: free,
        form: form_of(u.offered),
    }
}
