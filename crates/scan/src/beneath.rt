// What lies beneath a message, from what lies beneath the places that it refers to.
ghost use Rattle.std.specs.Prelude.{◌≡◌, ℕ, ◌≤◌, ◌<◌, length, get_or};
ghost use Rattle.base.specs.Tests.{any, below};
ghost use Rattle.roundbytes.specs.Layout.{round_len, round_in};
ghost use Rattle.notes.specs.Inside.Layout.{word_notes, byte_notes};
ghost use Rattle.notes.specs.Inside.Asking.{Covering};
ghost use Rattle.scan.specs.Inside.Arrays.{Beneath, is_crowding};
ghost use Rattle.round.specs.Limits.{max_held};

use crate::Under;
use message::layout::PROPOSAL;
use notes::Notes;
use places::Places;
use roundbytes::readers::kind_at;

// What lies beneath a message that refers to these places.
pub fn under(s: &[u8], notes: &Notes, places: &[u8]) -> Under
    requires { (round_len ≤ length s.now) × ((i : ℕ) → get_or places.now i 0 < max_held) }
    ensures { Beneath (round_in s.now) (word_notes notes.now.words) places.now result.set.low result.set.high result.ballot result.offered }
{
    let mut low: u64 = 0;
    let mut high: u64 = 0;
    let mut ballot: u64 = 0;
    let mut offered = false;
    for p in places {
        let k = usize::from(*p);
        let below = notes.beneath_at(k);
        low = below.low | low;
        high = below.high | high;
        ballot = notes.top_at(k).max(ballot);
        offered = (kind_at(s, k) == PROPOSAL) | offered;
    }
    let set = Places { low, high };
    Under {
        set,
        ballot,
        offered,
    }
}

// Whether place j is in the set and holds an acceptor message of this ballot and another name.
fn is_crowding(s: &[u8], notes: &Notes, set: Places, name: u8, ballot: u64, j: usize) -> bool
    requires { (round_len ≤ length s.now) × (j < max_held) }
    ensures { result ≡ is_crowding (round_in s.now) (word_notes notes.now.words) (byte_notes notes.now.octets) set.low set.high name ballot j }
{
    set.has(j)
        & (notes.name_at(j) != name)
        & (notes.top_at(j) == ballot)
        & (kind_at(s, j) != PROPOSAL)
}

// Whether there is such a place, each of which the walk has: then a 1b of this name and ballot is not well-formed.
pub fn is_crowded(
    s: &[u8],
    notes: &Notes,
    n: usize,
    set: Places,
    name: u8,
    ballot: u64,
    walk: Places,
) -> bool
    requires { (round_len ≤ length s.now)
        × Covering n (is_crowding (round_in s.now) (word_notes notes.now.words) (byte_notes notes.now.octets) set.low set.high name ballot) walk }
    ensures { result ≡ any (is_crowding (round_in s.now) (word_notes notes.now.words) (byte_notes notes.now.octets) set.low set.high name ballot) (below n) }
{
    let mut found = false;
    for j in walk.below(n) {
        found = is_crowding(s, notes, set, name, ballot, j) | found;
    }
    found
}
