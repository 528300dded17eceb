// The order of ids as bytes. Ids are compared by words of eight bytes: as big-endian numbers, words are ordered as their
// bytes are.
ghost use Rattle.std.specs.Prelude.{◌≡◌, ◌+◌, ◌*◌, ◌≤◌, length};
ghost use Rattle.base.specs.Bytes.{part};
ghost use Rattle.message.specs.Layout.{id_len};
ghost use Rattle.message.specs.Order.{before, ascending, TwoIds};

use super::layout::ID_LEN;
use base::read64;

const WORD_LEN: usize = 8;

// Whether the id at one place comes before the id at another. The first byte that differs decides.
pub fn id_before(s: &[u8], a: usize, b: usize) -> bool
    requires { (a + id_len ≤ length s.now) × (b + id_len ≤ length s.now) }
    ensures { result ≡ before (part id_len s.now a) (part id_len s.now b) }
{
    words_before(s, a, read64(s, a), b, read64(s, b))
}

// The same, for ids whose first words were read: x is the one at a, and y the one at b.
fn words_before(s: &[u8], a: usize, x: u64, b: usize, y: u64) -> bool
    requires { TwoIds s.now a x b y }
    ensures { result ≡ before (part id_len s.now a) (part id_len s.now b) }
{
    if x != y {
        return x < y;
    }
    for k in 1..ID_LEN / WORD_LEN {
        let v = read64(s, a + WORD_LEN * k);
        let w = read64(s, b + WORD_LEN * k);
        if v != w {
            return v < w;
        }
    }
    false
}

// Whether the ids ascend: the one at `from` and n more behind it. Each first word is read once.
pub fn ids_ascend(s: &[u8], from: usize, n: usize) -> bool
    requires { from + id_len + id_len * n ≤ length s.now }
    ensures { result ≡ ascending n s.now from }
{
    let mut first = read64(s, from);
    for i in 0..n {
        let at = from + ID_LEN * i;
        let next = read64(s, at + ID_LEN);
        if !words_before(s, at, first, at + ID_LEN, next) {
            return false;
        }
        first = next;
    }
    true
}
