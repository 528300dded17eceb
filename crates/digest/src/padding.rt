// FIPS 180-4, section 5.1.1: the last one or two blocks, which hold the end of the message and its padding.
ghost use Rattle.std.specs.Prelude.{◌≡◌, length, take};
ghost use Rattle.digest.specs.Preprocessing.{last_blocks};

use base::{put_all, put8, put64};

// How many bytes the last blocks have: the length's eight bytes fit behind at most 55 bytes and the byte 128.
pub fn last_size(message: &[u8]) -> usize
    ensures { result ≡ length (last_blocks message.now) }
{
    if message.len() % 64 < 56 { 64 } else { 128 }
}

// The last blocks, from the front of the answer.
pub fn last_blocks(message: &[u8]) -> [u8; 128]
    ensures { take (length (last_blocks message.now)) result ≡ last_blocks message.now }
{
    let whole = 64 * (message.len() / 64);
    let size = last_size(message);
    let mut last = [0u8; 128];
    put_all(&mut last, 0, &message[whole..]);
    put8(&mut last, message.len() % 64, 128);
    put64(&mut last, size - 8, (message.len() as u64) << 3);
    last
}
