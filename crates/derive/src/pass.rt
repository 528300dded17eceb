// The pass over the places of a round, in order: each is worked out from the notes of those before it, and its notes are put down.
ghost use Rattle.std.specs.Prelude.{suc, ◌+◌, ◌<◌};
ghost use Rattle.round.specs.Holdings.{graph_of};
ghost use Rattle.roundbytes.specs.Layout.{round_in};
ghost use Rattle.notes.specs.Inside.Layout.{word_notes, byte_notes};
ghost use Rattle.scan.specs.Inside.Arrays.{Named};
ghost use Rattle.meaning.specs.Inside.Records.{table_to};
ghost use Rattle.meaning.specs.Inside.Notes.{NotedBy, AllNoted};
ghost use Rattle.meaning.specs.Inside.Lent.{Given, FiledTo};
ghost use Rattle.derive.specs.Inside.Complete.{Extended, WorkedOut, OneMore};

use graph::Graph;
use meaning::step::step;
use message::layout::PROPOSAL;
use notes::{Notes, OFFER, Worked};
use places::Places;
use roundbytes::readers::{ballot_at, held_of, kind_at, previous_at, signer_at};
use scan::names::{name_place, name_places};

// The held message at place p, from the notes of the places before it, with the place itself among those that it reaches.
fn note_held(s: &[u8], graph: &Graph, notes: &Notes, p: usize) -> Worked
    requires { FiledTo s.now graph.now notes.now p × (p < (round_in s.now).held) }
    ensures { Named (round_in s.now) (round_in s.now).held (byte_notes notes.now.octets) → AllNoted (graph_of (round_in s.now)) (table_to (round_in s.now) p) (round_in s.now) (word_notes notes.now.words) (byte_notes notes.now.octets) → NotedBy (graph_of (round_in s.now)) (table_to (round_in s.now) (suc p)) p result }
{
    if kind_at(s, p) == PROPOSAL {
        let none = Places { low: 0, high: 0 };
        let alone = none.with(p, true);
        return Worked {
            beneath: alone,
            forks: none,
            ballot: ballot_at(s, p),
            learners: 0,
            fresh: 0,
            form: OFFER,
        };
    }
    let r = step(s, graph, notes, p);
    let beneath = r.beneath.with(p, true);
    Worked { beneath, ..r }
}

// The notes of one place more.
fn note_place(s: &[u8], graph: &Graph, notes: &mut Notes, p: usize)
    requires { FiledTo s.now graph.now notes.old p × (p < (round_in s.now).held) }
    ensures { Extended (round_in s.now) p (p + 1) (word_notes notes.old.words) (word_notes notes.new.words) (byte_notes notes.old.octets) (byte_notes notes.new.octets) }
{
    let r = note_held(s, graph, notes, p);
    let link = notes.name_at(usize::from(previous_at(s, p)));
    let f = r.forks;
    let forks = (f.low != 0) | (f.high != 0);
    notes.note_down(r, p);
    notes.file_place(signer_at(s, p), link, r.ballot, r.form, forks, p);
}

// The notes of all held messages, from those of the first `from`. The places have their names.
fn extend(s: &[u8], graph: &Graph, notes: &mut Notes, from: usize)
    requires { FiledTo s.now graph.now notes.old from }
    ensures { Extended (round_in s.now) from (round_in s.now).held (word_notes notes.old.words) (word_notes notes.new.words) (byte_notes notes.old.octets) (byte_notes notes.new.octets) }
{
    let n = held_of(s);
    for p in from..n {
        note_place(s, graph, notes, p);
    }
}

// The notes of the held messages, whatever stood in the notes.
pub fn work_out(s: &[u8], graph: &Graph, notes: &mut Notes)
    requires { Given s.now graph.now }
    ensures { WorkedOut (round_in s.now) notes.new }
{
    name_places(s, notes, held_of(s));
    extend(s, graph, notes, 0);
}

// The notes of the held messages, from those of the first n, which are all but the last: a message that is taken leaves the notes of the places before
// it as they are, so that it is noted without another pass.
pub fn work_more(s: &[u8], graph: &Graph, notes: &mut Notes, n: usize)
    requires { OneMore s.now graph.now notes.old n }
    ensures { WorkedOut (round_in s.now) notes.new }
{
    let _name = name_place(s, notes, n);
    extend(s, graph, notes, n);
}
