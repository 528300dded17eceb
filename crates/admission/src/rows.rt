// Rows 10 to 12 of the table "When a call is turned down", over the bytes s of a round. Rows 8, 9 and 16 compare numbers, and stand in the crate
// `order`; the rows that ask what a message means are worked out by the crate `derive`.
ghost use Rattle.std.specs.Prelude.{◌≡◌, IfSome, is_none, not, ◌+◌, ◌*◌, ◌≤◌, ◌<◌, length};
ghost use Rattle.arrayvec.specs.ArrayVec.{array_vec_len};
ghost use Rattle.base.specs.Tests.{any};
ghost use Rattle.base.specs.Bytes.{part};
ghost use Rattle.message.specs.Layout.{id_len};
ghost use Rattle.protocol.specs.Ids.{same_id};
ghost use Rattle.round.specs.Limits.{max_held};
ghost use Rattle.round.specs.Holdings.{is_known};
ghost use Rattle.round.specs.Rows.{ids_from, reference_ids, previous_id, placed, lacks, is_vote_of, unchained};
ghost use Rattle.round.specs.Delivery.{previous_place};
ghost use Rattle.roundbytes.specs.Layout.{round_len, round_in};
ghost use Rattle.admission.specs.Inside.Finding.{Bounded, Listed, Inside, place_found, places_of};
ghost use Rattle.admission.specs.Inside.Votes.{refers_to, vote_of};

use crate::lookup::{place_at, same_id};
use arrayvec::ArrayVec;
use base::put_all;
use message::AcceptorMessage;
use message::layout::{ID_LEN, PREVIOUS_AT, PROPOSAL, references_at};
use round::{MAX_HELD, NO_PLACE};
use roundbytes::readers::{kind_at, known_at, signer_at};

// What a round holds of an acceptor message: the place of its previous message or NO_PLACE, and those of its references, the first `count`.
#[derive(Clone, Copy)]
pub struct Vote {
    pub signer: u8,
    pub previous: u8,
    pub count: usize,
    pub places: [u8; MAX_HELD],
}

impl Vote {
    // The vote of a signer that refers to these places.
    pub fn new(signer: u8, previous: u8, places: &[u8]) -> Vote
        requires { length places.now ≤ max_held }
        ensures { result ≡ vote_of signer previous places.now }
    {
        let mut all = [0; MAX_HELD];
        put_all(&mut all, 0, places);
        Vote {
            signer,
            previous,
            count: places.len(),
            places: all,
        }
    }

    // The places that it refers to: all that there are, where it counts more.
    pub fn places(&self) -> &[u8]
        ensures { result.now ≡ refers_to self.now }
    {
        &self.places[..self.count.min(MAX_HELD)]
    }
}

// Row 10: whether a message is known already, by what was found for its id.
pub fn is_known(s: &[u8], found: Option<usize>) -> bool
    requires { Bounded s.now × Inside (round_in s.now) found }
    ensures { result ≡ placed (is_known (round_in s.now)) (place_found found) }
{
    found.is_some_and(|p| known_at(s, p) != 0)
}

// Whether a message is held and awaits its return.
pub fn is_awaited(s: &[u8], found: Option<usize>) -> bool
    requires { Bounded s.now × Inside (round_in s.now) found }
    ensures { result ≡ placed (λ p. not (is_known (round_in s.now) p)) (place_found found) }
{
    found.is_some_and(|p| known_at(s, p) == 0)
}

// Row 11: where the references of an acceptor message that was read from these bytes are held. None where one of them is not known.
pub fn resolve<'a>(
    s: &'a [u8],
    bytes: &'a [u8],
    m: AcceptorMessage,
) -> Option<ArrayVec<u8, MAX_HELD>>
    requires { Bounded s.now × Listed bytes.now m }
    ensures ruled { is_none result ≡ lacks (round_in s.now) (reference_ids bytes.now m) }
    ensures counted { IfSome result (λ places. array_vec_len places ≡ m.count) }
    ensures placed { IfSome result (λ places. places.items ≡ places_of (round_in s.now) (reference_ids bytes.now m)) }
{
    let at = references_at(m.previous);
    let count = m.count;
    let mut places = ArrayVec::new();
    for i in 0..count {
        let p = place_at(s, bytes, at + ID_LEN * i)?;
        if known_at(s, p) == 0 {
            return None;
        }
        places.push(p as u8);
    }
    Some(places)
}

// Whether the id in `bytes` from `at` on is one of the `count` ids from `first` on.
fn is_among(bytes: &[u8], at: usize, first: usize, count: usize) -> bool
    requires { (count ≤ max_held) × ((at + id_len ≤ length bytes.now) × (first + id_len * count ≤ length bytes.now)) }
    ensures { result ≡ any (same_id (part id_len bytes.now at)) (ids_from count bytes.now first) }
{
    (0..count).any(|i| same_id(bytes, at, bytes, first + ID_LEN * i))
}

// Whether an acceptor message of a signer is held at a place.
fn is_vote_of(s: &[u8], p: usize, signer: u8) -> bool
    requires { (round_len ≤ length s.now) × (p < max_held) }
    ensures { result ≡ is_vote_of (round_in s.now) signer p }
{
    kind_at(s, p) != PROPOSAL && signer_at(s, p) == signer
}

// Row 12: where the previous message of an acceptor message that was read from these bytes is held, or NO_PLACE where it names no previous one.
// None where it is not referred to, a proposal, or of another signer.
pub fn previous_of<'a>(s: &'a [u8], bytes: &'a [u8], m: AcceptorMessage) -> Option<u8>
    requires { Bounded s.now × Listed bytes.now m }
    ensures ruled { is_none result ≡ unchained (round_in s.now) m.signer (reference_ids bytes.now m) (previous_id bytes.now m) }
    ensures placed { IfSome result (λ place. place ≡ previous_place (round_in s.now) (previous_id bytes.now m)) }
{
    if !m.previous {
        return Some(NO_PLACE);
    }
    if !is_among(bytes, PREVIOUS_AT, references_at(m.previous), m.count) {
        return None;
    }
    let p = place_at(s, bytes, PREVIOUS_AT)?;
    if !is_vote_of(s, p, m.signer) {
        return None;
    }
    Some(p as u8)
}
