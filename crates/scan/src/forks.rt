// Forks: two acceptor messages of one signer with the same previous message or both with none; and the acceptors caught by them.
ghost use Rattle.std.specs.Prelude.{◌≡◌, ◌&&◌, ℕ, ◌≤◌, ◌<◌, eqb, length};
ghost use Rattle.base.specs.Tests.{any, below};
ghost use Rattle.base.specs.Sets.{has};
ghost use Rattle.places.specs.Inside.PlaceSets.{in_set};
ghost use Rattle.round.specs.Holdings.{signer_at};
ghost use Rattle.roundbytes.specs.Layout.{round_len, round_in};
ghost use Rattle.notes.specs.Inside.Layout.{word_notes, byte_notes};
ghost use Rattle.notes.specs.Inside.Asking.{Covering};
ghost use Rattle.scan.specs.Inside.Arrays.{is_fork, is_caught};
ghost use Rattle.round.specs.Limits.{max_held};
ghost use Rattle.graph.specs.Limits.{mask_bits};

use message::layout::PROPOSAL;
use notes::Notes;
use places::Places;
use places::sets::with_acceptor;
use roundbytes::readers::{kind_at, previous_at, signer_at};

// Whether the message at place j forks with one of this signer, name and link.
fn is_fork(s: &[u8], notes: &Notes, signer: u8, name: u8, link: u8, j: usize) -> bool
    requires { (round_len ≤ length s.now) × (j < max_held) }
    ensures { result ≡ is_fork (round_in s.now) (byte_notes notes.now.octets) signer name link j }
{
    let at = usize::from(previous_at(s, j));
    (kind_at(s, j) != PROPOSAL)
        & (signer_at(s, j) == signer)
        & (notes.name_at(j) != name)
        & (notes.name_at(at) == link)
}

// Those of the first n places that fork with it; the walk has each of them.
pub fn forking(
    s: &[u8],
    notes: &Notes,
    n: usize,
    signer: u8,
    name: u8,
    link: u8,
    walk: Places,
) -> Places
    requires { (round_len ≤ length s.now) × Covering n (is_fork (round_in s.now) (byte_notes notes.now.octets) signer name link) walk }
    ensures { (q : ℕ) → q < max_held → in_set result.low result.high q
        ≡ any (λ j. is_fork (round_in s.now) (byte_notes notes.now.octets) signer name link j && eqb j q) (below n) }
{
    let mut found = Places { low: 0, high: 0 };
    for j in walk.below(n) {
        let on = is_fork(s, notes, signer, name, link, j);
        found = found.with(j, on);
    }
    found
}

// Whether place j is in the set and forks with another one there.
fn is_caught(notes: &Notes, set: Places, j: usize) -> bool
    requires { j < max_held }
    ensures { result ≡ is_caught (word_notes notes.now.words) set.low set.high j }
{
    let forks = notes.forks_at(j);
    set.has(j) & set.meets(forks)
}

// The signers of such places among the first n; the walk has each of them.
pub fn caught_in(s: &[u8], notes: &Notes, n: usize, set: Places, walk: Places) -> u32
    requires { (round_len ≤ length s.now) × Covering n (is_caught (word_notes notes.now.words) set.low set.high) walk }
    ensures { (p : ℕ) → p < mask_bits → has result p
        ≡ any (λ j. is_caught (word_notes notes.now.words) set.low set.high j && eqb (signer_at (round_in s.now) j) p) (below n) }
{
    let mut mask: u32 = 0;
    for j in walk.below(n) {
        let on = is_caught(notes, set, j);
        mask = with_acceptor(mask, signer_at(s, j), on);
    }
    mask
}
