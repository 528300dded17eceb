// Sets of the places of a round, each place a bit, and the walk over such a set; sets of acceptors and of learners.
#![tactic(auto)]

ghost use Rattle.std.specs.Prelude.{◌≡◌, ◌&&◌, ◌||◌, ℕ, ◌≤◌, ◌<◌, eqb};
ghost use Rattle.places.specs.Inside.PlaceSets.{in_set, meets, First, Dropped, members};
ghost use Rattle.std.specs.Iterator.{YieldsFirst, item_count};
ghost use Rattle.round.specs.Limits.{max_held};

pub mod sets;

// A set of places: bit j of low is place j, bit j of high place 64 + j.
#[derive(Clone, Copy)]
pub struct Places {
    pub low: u64,
    pub high: u64,
}

impl Places {
    pub fn has(self, j: usize) -> bool
        requires { j < max_held }
        ensures { result ≡ in_set self.low self.high j }
    {
        if j < 64 {
            (self.low >> j) & 1 == 1
        } else {
            (self.high >> (j - 64)) & 1 == 1
        }
    }

    // The set with place j, where `on`.
    pub fn with(self, j: usize, on: bool) -> Places
        requires { j < max_held }
        ensures { (q : ℕ) → q < max_held → in_set result.low result.high q ≡ ((on && eqb j q) || in_set self.low self.high q) }
    {
        let Places { low, high } = self;
        if !on {
            return self;
        }
        if j < 64 {
            Places {
                low: low | (1u64 << j),
                high,
            }
        } else {
            Places {
                low,
                high: high | (1u64 << (j - 64)),
            }
        }
    }

    // Whether two sets have a place in common.
    pub fn meets(self, other: Places) -> bool
        ensures { result ≡ meets self.low self.high other.low other.high }
    {
        (self.low & other.low != 0) | (self.high & other.high != 0)
    }

    // The places that two sets have in common.
    pub fn common(self, other: Places) -> Places
        ensures { (q : ℕ) → q < max_held → in_set result.low result.high q ≡ (in_set self.low self.high q && in_set other.low other.high q) }
    {
        Places {
            low: self.low & other.low,
            high: self.high & other.high,
        }
    }

    // The places of the set below n, in ascending order.
    pub fn below(self, n: usize) -> Walk
        requires { n ≤ max_held }
        ensures { (result.rest ≡ self) × (result.n ≡ n) }
    {
        Walk { rest: self, n }
    }

    // The first place of the set, or n where that is lower.
    #[inline(always)]
    fn first_below(self, n: usize) -> usize
        requires { n ≤ max_held }
        ensures { First n self.low self.high result }
    {
        let Places { low, high } = self;
        if low != 0 {
            return (u64::trailing_zeros(low) as usize).min(n);
        }
        (u64::trailing_zeros(high) as usize + 64).min(n)
    }

    // The set without its first place.
    #[inline(always)]
    fn without_first(self) -> Places
        ensures { Dropped self.low self.high result.low result.high }
    {
        let Places { low, high } = self;
        if low != 0 {
            return Places {
                low: low & (low - 1),
                high,
            };
        }
        if high != 0 {
            return Places {
                low,
                high: high & (high - 1),
            };
        }
        self
    }
}

// A walk over the places of a set below n, in ascending order: those that are still to come.
#[derive(Clone, Copy)]
pub struct Walk {
    pub rest: Places,
    pub n: usize,
    pub ghost few: { n ≤ max_held },
}

impl Iterator for Walk {
    type Item = usize;

    ghost next_gives = { YieldsFirst (λ w. members w.rest.low w.rest.high 0 w.n) };

    ghost remaining = { item_count (λ w. members w.rest.low w.rest.high 0 w.n) };

    // Each loop over a walk has this step in it.
    #[inline(always)]
    fn next(&mut self) -> Option<usize> {
        let rest = self.rest;
        let j = rest.first_below(self.n);
        if j < self.n {
            self.rest = rest.without_first();
            return Some(j);
        }
        None
    }
}
