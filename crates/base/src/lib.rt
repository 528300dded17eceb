// What every layer leans on: big-endian numbers read and written by shifts, bytes copied, the value of a ballot.
#![tactic(auto)]

pub mod refusal;

ghost use Rattle.std.specs.Prelude.{◌≡◌, [], ◌∷◌, ◌+◌, ◌^◌, ◌≤◌, ◌<◌, length};
ghost use Rattle.base.specs.Ballots.{value_of};
ghost use Rattle.base.specs.Bytes.{be, bytes, put_at};

// The value of a ballot: its lower 32 bits.
pub fn value(ballot: u64) -> u64
    ensures { result ≡ value_of ballot }
{
    ballot & 0xFFFF_FFFF
}

// The number in the n bytes of s from `at`, the highest first.
#[inline(always)]
fn number_in(s: &[u8], at: usize, n: usize) -> u64
    requires { (at + n ≤ length s.now) × (n ≤ 8) }
    ensures { (result ≡ be n s.now at) × (result < 256 ^ n) }
{
    let mut x = 0;
    for (i, byte) in s[at..at + n].iter().enumerate() {
        x |= u64::from(*byte) << (8 * (n - 1 - i));
    }
    x
}

// The number in two bytes.
pub fn read16(s: &[u8], at: usize) -> usize
    requires { at + 2 ≤ length s.now }
    ensures { (result ≡ be 2 s.now at) × (result < 65536) }
{
    number_in(s, at, 2) as usize
}

// The number in four bytes.
pub fn read32(s: &[u8], at: usize) -> u32
    requires { at + 4 ≤ length s.now }
    ensures { result ≡ be 4 s.now at }
{
    number_in(s, at, 4) as u32
}

// The number in eight bytes.
pub fn read64(s: &[u8], at: usize) -> u64
    requires { at + 8 ≤ length s.now }
    ensures { result ≡ be 8 s.now at }
{
    number_in(s, at, 8)
}

// One byte put in.
pub fn put8(buf: &mut [u8], at: usize, x: u8)
    requires { at < length buf.old }
    ensures { buf.new ≡ put_at buf.old at (x ∷ []) }
{
    buf[at] = x;
}

// A number put in as n bytes, the highest first.
#[inline(always)]
fn put_number(buf: &mut [u8], at: usize, n: usize, x: u64)
    requires { (at + n ≤ length buf.old) × (n ≤ 8) }
    ensures { buf.new ≡ put_at buf.old at (bytes n x) }
{
    for (i, byte) in buf[at..at + n].iter_mut().enumerate() {
        *byte = (x >> (8 * (n - 1 - i)) & 255) as u8;
    }
}

// A number put in as two bytes.
pub fn put16(buf: &mut [u8], at: usize, x: usize)
    requires { (at + 2 ≤ length buf.old) × (x < 65536) }
    ensures { buf.new ≡ put_at buf.old at (bytes 2 x) }
{
    put_number(buf, at, 2, x as u64);
}

// A number put in as four bytes.
pub fn put32(buf: &mut [u8], at: usize, x: u32)
    requires { at + 4 ≤ length buf.old }
    ensures { buf.new ≡ put_at buf.old at (bytes 4 x) }
{
    put_number(buf, at, 4, u64::from(x));
}

// A number put in as eight bytes.
pub fn put64(buf: &mut [u8], at: usize, x: u64)
    requires { at + 8 ≤ length buf.old }
    ensures { buf.new ≡ put_at buf.old at (bytes 8 x) }
{
    put_number(buf, at, 8, x);
}

// All of src put in, by a loop: `copy_from_slice` would have the archive ask its host for `memmove` (DECISIONS 74).
pub fn put_all(buf: &mut [u8], at: usize, src: &[u8])
    requires { at + length src.now ≤ length buf.old }
    ensures { buf.new ≡ put_at buf.old at src.now }
{
    for i in 0..src.len() {
        buf[at + i] = src[i];
    }
}
