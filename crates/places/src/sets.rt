// Sets as bits: places in two words, acceptors and learners in a mask.
ghost use Rattle.std.specs.Prelude.{◌≡◌, ◌&&◌, ◌||◌, ℕ, ◌+◌, ◌<◌, T, eqb, length, get_or};
ghost use Rattle.base.specs.Sets.{has};
ghost use Rattle.base.specs.Bytes.{part};
ghost use Rattle.places.specs.Inside.PlaceSets.{in_set, Grown};
ghost use Rattle.round.specs.Limits.{max_held};
ghost use Rattle.graph.specs.Limits.{mask_bits, max_learners};

use crate::Places;
use graph::MASK_BITS;

// Place j put into the set of key k. Of the sets the low words stand in front, one for each key, and the high words behind them.
pub fn put_place(sets: &mut [u64], keys: usize, k: usize, j: usize)
    requires { (j < max_held) × ((k < keys) × (length sets.old ≡ keys + keys)) }
    ensures { Grown (part keys sets.old 0) (part keys sets.old keys) (part keys sets.new 0) (part keys sets.new keys)
        × T (in_set (get_or (part keys sets.new 0) k 0) (get_or (part keys sets.new keys) k 0) j) }
{
    let s = Places {
        low: sets[k],
        high: sets[keys + k],
    };
    let s = s.with(j, true);
    sets[k] = s.low;
    sets[keys + k] = s.high;
}

// The mask with acceptor p, where `on`. A signer that no mask can hold is in none.
pub fn with_acceptor(mask: u32, p: u8, on: bool) -> u32
    ensures { (q : ℕ) → q < mask_bits → has result q ≡ ((on && eqb p q) || has mask q) }
{
    if on & (p < MASK_BITS) {
        mask | (1u32 << p)
    } else {
        mask
    }
}

pub fn has_learner(mask: u8, a: usize) -> bool
    requires { a < max_learners }
    ensures { result ≡ has mask a }
{
    (mask >> a) & 1 == 1
}

// The mask with learner a, where `on`.
pub fn with_learner(mask: u8, a: usize, on: bool) -> u8
    requires { a < max_learners }
    ensures { (q : ℕ) → has result q ≡ ((on && eqb a q) || has mask q) }
{
    if on { mask | (1u8 << a) } else { mask }
}
