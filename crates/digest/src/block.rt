// FIPS 180-4, section 6.2.2: the hash value after one block.
ghost use Rattle.std.specs.Prelude.{◌≡◌, length, take};
ghost use Rattle.digest.specs.Preprocessing.{words};
ghost use Rattle.digest.specs.Sha256.{schedule, round, rounds, added, compressed};

use crate::State;
use crate::constants::K;
use crate::functions::{big_sigma0, big_sigma1, ch, maj, small_sigma0, small_sigma1};
use base::read32;

// Step 1: the words of a block, at the front of an array that has room for the whole schedule.
fn block_words(block: &[u8]) -> [u32; 64]
    requires { length block.now ≡ 64 }
    ensures { take 16 result ≡ words 16 block.now }
{
    let mut w = [0u32; 64];
    for t in 0..16 {
        w[t] = read32(block, 4 * t);
    }
    w
}

// Step 1: the message schedule of a block.
fn schedule_of(block: &[u8]) -> [u32; 64]
    requires { length block.now ≡ 64 }
    ensures { result ≡ schedule block.now }
{
    let mut w = block_words(block);
    for u in 16..64 {
        w[u] = small_sigma1(w[u - 2])
            .wrapping_add(w[u - 7])
            .wrapping_add(small_sigma0(w[u - 15]))
            .wrapping_add(w[u - 16]);
    }
    w
}

// Step 3: one round, with its constant k and its word w.
fn after_round(s: State, k: u32, w: u32) -> State
    ensures { result ≡ round k w s }
{
    let t1 = s
        .h
        .wrapping_add(big_sigma1(s.e))
        .wrapping_add(ch(s.e, s.f, s.g))
        .wrapping_add(k)
        .wrapping_add(w);
    let t2 = big_sigma0(s.a).wrapping_add(maj(s.a, s.b, s.c));
    State {
        a: t1.wrapping_add(t2),
        b: s.a,
        c: s.b,
        d: s.c,
        e: s.d.wrapping_add(t1),
        f: s.e,
        g: s.f,
        h: s.g,
    }
}

// Step 3: all 64 rounds.
fn after_rounds(s0: State, w: &[u32; 64]) -> State
    ensures { result ≡ rounds 64 w.now s0 }
{
    let mut s = s0;
    for (k, word) in K.iter().zip(w) {
        s = after_round(s, *k, *word);
    }
    s
}

// Step 4: the words of two states added.
fn sum(s: State, t: State) -> State
    ensures { result ≡ added s t }
{
    State {
        a: s.a.wrapping_add(t.a),
        b: s.b.wrapping_add(t.b),
        c: s.c.wrapping_add(t.c),
        d: s.d.wrapping_add(t.d),
        e: s.e.wrapping_add(t.e),
        f: s.f.wrapping_add(t.f),
        g: s.g.wrapping_add(t.g),
        h: s.h.wrapping_add(t.h),
    }
}

// The hash value after a block.
pub fn compress(hash: State, block: &[u8]) -> State
    requires { length block.now ≡ 64 }
    ensures { result ≡ compressed hash block.now }
{
    let w = schedule_of(block);
    let s = after_rounds(hash, &w);
    sum(s, hash)
}
