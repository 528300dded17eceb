// Names: messages are told apart by id, and an id held twice names the lower place. So the name of a place is the lowest one with its id, and
// two messages are the same exactly if their names are. A previous message is compared by its name too; none is the name of none.
// Ids are found by a key, so that few places are compared.
ghost use Rattle.std.specs.Prelude.{◌≡◌, ◌≤◌, ◌<◌, length};
ghost use Rattle.roundbytes.specs.Layout.{round_len, round_in};
ghost use Rattle.notes.specs.Inside.Layout.{word_notes, byte_notes};
ghost use Rattle.scan.specs.Inside.Arrays.{Lowest, id_key, IdsIndexed, IdsFiled, NamedMore, NamedAll};
ghost use Rattle.round.specs.Limits.{max_held};

use message::layout::ID_LEN;
use notes::{ID_KEYS, Notes};
use round::NO_PLACE;
use roundbytes::IDS_AT;

// The key of the id that begins at a byte: the low bits of its first byte; 0 where the bytes end before it.
fn id_key(bytes: &[u8], at: usize) -> usize
    ensures { result ≡ id_key bytes.now at }
{
    if bytes.len() <= at {
        return 0;
    }
    usize::from(bytes[at]) % ID_KEYS
}

// The lowest of the first n places with this id, or n.
pub fn name_of(s: &[u8], notes: &Notes, n: usize, id: &[u8]) -> usize
    requires { (round_len ≤ length s.now) × (IdsFiled (round_in s.now) n (word_notes notes.now.words)) }
    ensures { Lowest (round_in s.now) n id.now result }
{
    for i in notes.id_set(id_key(id, 0)).below(n) {
        let at = IDS_AT + ID_LEN * i;
        if check::same(&s[at..at + ID_LEN], id) {
            return i;
        }
    }
    n
}

// The name of place i is put among the names, and the place into the index of the ids: the lowest of the places up to it with its id.
pub fn name_place(s: &[u8], notes: &mut Notes, i: usize) -> usize
    requires { (round_len ≤ length s.now) × ((i < max_held) × IdsIndexed (round_in s.now) i (word_notes notes.old.words)) }
    ensures { NamedMore (round_in s.now) i result (word_notes notes.old.words) (word_notes notes.new.words) (byte_notes notes.old.octets) (byte_notes notes.new.octets) }
{
    let at = IDS_AT + ID_LEN * i;
    let name = name_of(s, notes, i, &s[at..at + ID_LEN]);
    notes.put_name(i, name as u8);
    notes.file_id(id_key(s, at), i);
    name
}

// The names of the first n places, and their ids by key.
pub fn name_places(s: &[u8], notes: &mut Notes, n: usize)
    requires { (round_len ≤ length s.now) × (n ≤ max_held) }
    ensures { NamedAll (round_in s.now) n (word_notes notes.old.words) (word_notes notes.new.words) (byte_notes notes.old.octets) (byte_notes notes.new.octets) }
{
    notes.put_name(usize::from(NO_PLACE), NO_PLACE);
    for i in 0..n {
        let _name = name_place(s, notes, i);
    }
}
