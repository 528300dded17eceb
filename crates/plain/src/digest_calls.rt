// The digest.
ghost use Rattle.std.specs.Prelude.{◌≡◌};
ghost use Rattle.plain.specs.Digest.{digest_answer, digest_buffer};

use base::put_all;
use base::refusal::Refusal;
use digest::sha256;
use message::layout::ID_LEN;

// 0: the first 32 bytes of digest are the digest of message, and those behind keep their values. 17: digest is too short, and is not written.
pub fn sha256_to(message: &[u8], digest: &mut [u8]) -> u32
    ensures { (result ≡ digest_answer digest.old) × (digest.new ≡ digest_buffer message.now digest.old) }
{
    if digest.len() < ID_LEN {
        return u32::from(Refusal::Argument);
    }
    let d = sha256(message);
    put_all(digest, 0, &d);
    0
}
