// The references of a message that was read: a struct that lends the message's bytes and knows how many ids end them.
// Its method `nth` is thin: it takes the struct apart and calls a function on the slice and the number.
ghost use Rattle.std.specs.Prelude.{◌≡◌};
ghost use Rattle.message.specs.Reader.{nth_of};

use super::layout::ID_LEN;
use base::refusal::Refusal;

#[derive(Clone, Copy)]
pub struct References<'a> {
    pub bytes: &'a [u8],
    pub count: usize,
}

// Where the n-th of the count ids stands that end these bytes, from 0 on; bytes too short for so many have none. The
// count is compared with the room and n with the count before they are multiplied.
pub fn place_of(bytes: &[u8], count: usize, n: usize) -> Result<usize, Refusal>
    ensures { result ≡ nth_of bytes.now count n }
{
    if bytes.len() / ID_LEN < count {
        return Err(Refusal::Argument);
    }
    if n < count {
        Ok(bytes.len() - ID_LEN * (count - n))
    } else {
        Err(Refusal::Argument)
    }
}

impl<'a> References<'a> {
    // The references of a message with this count; a proposal has none.
    pub fn new(bytes: &'a [u8], count: usize) -> References<'a>
        ensures { (result.bytes ≡ bytes.entry) × (result.count ≡ count) }
    {
        References { bytes, count }
    }

    // Where the n-th reference stands, from 0 on.
    pub fn nth(self, n: usize) -> Result<usize, Refusal>
        ensures { result ≡ nth_of self.entry.bytes.now self.entry.count n }
    {
        place_of(self.bytes, self.count, n)
    }

    // The message's bytes, handed back.
    pub fn bytes(self) -> &'a [u8]
        ensures { result ≡ self.entry.bytes }
    {
        self.bytes
    }

    // How many references there are.
    pub fn count(self) -> usize
        ensures { result ≡ self.entry.count }
    {
        self.count
    }
}
