// SHA-256 of FIPS 180-4. The definitions in specs/ transcribe the standard; sha256 answers what they say, for a message of any length.
#![tactic(auto)]

ghost use Rattle.std.specs.Prelude.{◌≡◌, ◌/◌, length};
ghost use Rattle.digest.specs.Preprocessing.{padded, initial};
ghost use Rattle.digest.specs.Sha256.{hash, joined, sha256};

use base::put32;
use block::compress;
use constants::START;
use padding::{last_blocks, last_size};

mod block;
mod constants;
mod functions;
mod padding;

// The eight words of a hash value, and the eight working variables.
#[derive(Clone, Copy)]
pub struct State {
    pub a: u32,
    pub b: u32,
    pub c: u32,
    pub d: u32,
    pub e: u32,
    pub f: u32,
    pub g: u32,
    pub h: u32,
}

// The digest of a message.
pub fn sha256(message: &[u8]) -> [u8; 32]
    ensures { result ≡ sha256 message.now }
{
    bytes_of(hash_value(message))
}

// The initial hash value.
fn start() -> State
    ensures { result ≡ initial }
{
    State {
        a: START[0],
        b: START[1],
        c: START[2],
        d: START[3],
        e: START[4],
        f: START[5],
        g: START[6],
        h: START[7],
    }
}

// The hash value after the blocks that the message fills, which are read where they stand.
fn after_whole_blocks(message: &[u8]) -> State
    ensures { result ≡ hash (length message.now / 64) (padded message.now) }
{
    let mut value = start();
    for block in message.chunks_exact(64) {
        value = compress(value, block);
    }
    value
}

// The hash value after all blocks.
fn hash_value(message: &[u8]) -> State
    ensures { result ≡ hash (length (padded message.now) / 64) (padded message.now) }
{
    let whole = after_whole_blocks(message);
    let last = last_blocks(message);
    let next = compress(whole, &last[0..64]);
    if last_size(message) == 64 {
        return next;
    }
    compress(next, &last[64..128])
}

// A hash value as bytes.
fn bytes_of(value: State) -> [u8; 32]
    ensures { result ≡ joined value }
{
    let mut out = [0u8; 32];
    put32(&mut out, 0, value.a);
    put32(&mut out, 4, value.b);
    put32(&mut out, 8, value.c);
    put32(&mut out, 12, value.d);
    put32(&mut out, 16, value.e);
    put32(&mut out, 20, value.f);
    put32(&mut out, 24, value.g);
    put32(&mut out, 28, value.h);
    out
}
