// Fields put into a lent buffer.
ghost use Rattle.std.specs.Prelude.{◌≡◌, ℕ, ◌+◌, ◌*◌, ◌≤◌, ◌<◌, length, get_or};
ghost use Rattle.base.specs.Bytes.{put_at};
ghost use Rattle.message.specs.Layout.{outer_len, signer_at, id_len};
ghost use Rattle.message.specs.Writer.{head_bytes, fronted};
ghost use Rattle.message.specs.Inside.Writing.{gathered};

use super::layout::{BAY_AT, HOUSE_AT, ID_LEN, KIND_AT, OUTER_LEN, SIGNER_AT, VERSION, VERSION_AT};
use base::{put_all, put8, put16};

// What a message of len bytes begins with, up to its signer.
pub fn write_head(buf: &mut [u8], len: usize, kind: u8, house: u16, bay: u16, signer: u8)
    requires { (signer_at < length buf.old) × ((outer_len ≤ len) × (len < outer_len + 65536)) }
    ensures { buf.new ≡ fronted (head_bytes len kind house bay signer) buf.old }
{
    put16(buf, 0, len - OUTER_LEN);
    put8(buf, VERSION_AT, VERSION);
    put8(buf, KIND_AT, kind);
    put16(buf, HOUSE_AT, house as usize);
    put16(buf, BAY_AT, bay as usize);
    put8(buf, SIGNER_AT, signer);
}

// The ids at the first n places, one behind the other from `at`.
pub fn put_references<'a>(buf: &mut [u8], at: usize, ids: &'a [u8], places: &'a [u8], n: usize)
    requires { (at + id_len * n ≤ length buf.old) × ((n ≤ length places.now) × ((i : ℕ) → i < n → id_len * get_or places.now i 0 + id_len ≤ length ids.now)) }
    ensures { buf.new ≡ put_at buf.old at (gathered n ids.now places.now) }
{
    for i in 0..n {
        let from = ID_LEN * usize::from(places[i]);
        put_all(buf, at + ID_LEN * i, &ids[from..from + ID_LEN]);
    }
}
