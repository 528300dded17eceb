// Ids, and the places that they name. The round stands in the bytes s, and an id of it is compared where it stands.
ghost use Rattle.std.specs.Prelude.{◌≡◌, ◌+◌, ◌≤◌, T, length};
ghost use Rattle.base.specs.Bytes.{be, part};
ghost use Rattle.message.specs.Layout.{id_len};
ghost use Rattle.protocol.specs.Ids.{same_id};
ghost use Rattle.round.specs.Holdings.{named, place_of};
ghost use Rattle.round.specs.Handed.{place_fits};
ghost use Rattle.round.specs.Delivery.{previous_place};
ghost use Rattle.roundbytes.specs.Layout.{round_in};
ghost use Rattle.admission.specs.Inside.Finding.{Bounded, place_found};

use base::read64;
use message::layout::ID_LEN;
use round::NO_PLACE;
use roundbytes::IDS_AT;
use roundbytes::readers::held_of;

// Whether two ids whose first words are equal are the same: the other three words.
fn same_rest<'a>(a: &'a [u8], i: usize, b: &'a [u8], j: usize) -> bool
    requires { (i + id_len ≤ length a.now) × ((j + id_len ≤ length b.now) × (be 8 a.now i ≡ be 8 b.now j)) }
    ensures { result ≡ same_id (part id_len a.now i) (part id_len b.now j) }
{
    read64(a, i + 8) == read64(b, j + 8)
        && read64(a, i + 16) == read64(b, j + 16)
        && read64(a, i + 24) == read64(b, j + 24)
}

// Whether the id in a from i on is the one in b from j on. Ids are digests, so two that differ mostly do so in the first
// word.
pub fn same_id<'a>(a: &'a [u8], i: usize, b: &'a [u8], j: usize) -> bool
    requires { (i + id_len ≤ length a.now) × (j + id_len ≤ length b.now) }
    ensures { result ≡ same_id (part id_len a.now i) (part id_len b.now j) }
{
    read64(a, i) == read64(b, j) && same_rest(a, i, b, j)
}

// The place that the id in `bytes` from `at` on names: the lowest that has it, or none. Its first word is read once, and each place
// is asked for that word first.
pub fn place_at<'a>(s: &'a [u8], bytes: &'a [u8], at: usize) -> Option<usize>
    requires { Bounded s.now × (at + id_len ≤ length bytes.now) }
    ensures { place_found result ≡ place_of (round_in s.now) (part id_len bytes.now at) }
{
    let held = held_of(s);
    let first = read64(bytes, at);
    for p in 0..held {
        let here = IDS_AT + ID_LEN * p;
        if read64(s, here) == first && same_rest(s, here, bytes, at) {
            return Some(p);
        }
    }
    None
}

// The place that an id names, or none.
pub fn place_of<'a>(s: &'a [u8], id: &'a [u8]) -> Option<usize>
    requires { Bounded s.now × (length id.now ≡ id_len) }
    ensures { place_found result ≡ place_of (round_in s.now) id.now }
{
    place_at(s, id, 0)
}

// The place that the id of a place names, or NO_PLACE: where an id is held twice, a lower one.
pub fn named_place(s: &[u8], place: u8) -> u8
    requires { Bounded s.now × T (place_fits (round_in s.now) place) }
    ensures { result ≡ previous_place (round_in s.now) (named (round_in s.now) place) }
{
    if place == NO_PLACE {
        return NO_PLACE;
    }
    place_at(s, s, IDS_AT + ID_LEN * usize::from(place)).unwrap_or(0) as u8
}
