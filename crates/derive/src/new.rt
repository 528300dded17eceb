// A message judged by the notes of those that the round holds.
ghost use Rattle.std.specs.Prelude.{ℕ};
ghost use Rattle.protocol.specs.Table.{says};
ghost use Rattle.round.specs.Holdings.{graph_of, named};
ghost use Rattle.round.specs.Rows.{message_of};
ghost use Rattle.roundbytes.specs.Layout.{round_in};
ghost use Rattle.meaning.specs.Inside.Notes.{Judged};
ghost use Rattle.derive.specs.Inside.Complete.{Judging};

use graph::Graph;
use meaning::Note;
use notes::Notes;
use roundbytes::readers::{held_of, learners_of};
use scan::beneath::{is_crowded, under};
use scan::names::name_of;
use scan::repeats::is_repeated;
use voting::learners::learners_for;

// An acceptor message with this id that names the message at place `previous` as its previous one, or none, and refers to these places. Who signed it
// does not matter.
pub fn judge(s: &[u8], graph: &Graph, notes: &Notes, id: &[u8], previous: u8, places: &[u8]) -> Note
    requires { Judging s.now graph.now notes.now previous places.now }
    ensures { (signer : ℕ) → Judged (graph_of (round_in s.now)) (message_of (round_in s.now) (says id.now signer (named (round_in s.now) previous) places.now)) result }
{
    let held = held_of(s);
    let u = under(s, notes, places);
    let set = u.set;
    if u.offered {
        let name = name_of(s, notes, held, id) as u8;
        let peers = notes.peers_of(set, u.ballot);
        let crowded = is_crowded(s, notes, held, set, name, u.ballot, peers);
        return Note {
            formed1b: !crowded,
            formed2a: true,
        };
    }
    let backers = notes.backers_of(set, u.ballot);
    let l = learners_of(s);
    let learned = learners_for(s, graph, notes, l, held, set, u.ballot, backers);
    let link = notes.name_at(usize::from(previous));
    let repeated = is_repeated(notes, places, link, u.ballot, learned);
    Note {
        formed1b: true,
        formed2a: (learned != 0) & !repeated,
    }
}
