// Runs SHA-256 on the vectors that NIST publishes with FIPS 180-4 and on messages at the padding's edges, and prints how many failed.
// The expected digests are the published ones and, for the edges, those of the tool sha256sum.
#![tactic(auto)]

ghost use Rattle.std.specs.Prelude.{◌≡◌, ◌≢◌, ◌+◌, ◌%◌, ◌^◌, ◌≤◌, Ok};
ghost use Rattle.digest.specs.Sha256.{sha256};
ghost use Rattle.hex.specs.Hex.{decode_sized};

use digest::sha256;
use hex::FromHex;
use std::io;
use tally::Tally;

fn main(rt: HostRuntime) -> io::Result<()> {
    let t = vectors();
    println!(rt; "{} vectors, {} failed", t.run, t.failed)
}

// All the vectors.
fn vectors() -> Tally
    ensures run { result.run ≡ 15 }
    ensures failed { result.failed ≤ 15 }
{
    let mut t = Tally::new();
    published(&mut t);
    padding_edges(&mut t);
    block_edges(&mut t);
    two_block_edges(&mut t);
    t
}

// One vector more: the digest of message is to be this one, in hexadecimal digits.
fn tried(t: &mut Tally, message: &[u8], expected: &str)
    ensures run { t.new.run ≡ (t.old.run + 1) % 2 ^ 64 }
    ensures failed { t.new.failed ≤ t.old.failed + 1 }
    ensures passes { decode_sized expected.now 32 ≡ Ok (sha256 message.now) → t.new.failed ≡ t.old.failed }
    ensures fails { decode_sized expected.now 32 ≢ Ok (sha256 message.now) → t.new.failed ≡ (t.old.failed + 1) % 2 ^ 64 }
{
    t.tried(<[u8; 32]>::from_hex(expected) == Ok(sha256(message)));
}

// A million letters "a".
fn million() -> [u8; 1000000] {
    [b'a'; 1000000]
}

// The published vectors: the empty message, "abc", the messages of 448 and of 896 bits, a million letters "a".
fn published(t: &mut Tally)
    ensures run { t.new.run ≡ (t.old.run + 5) % 2 ^ 64 }
    ensures failed { t.new.failed ≤ t.old.failed + 5 }
{
    let many = million();
    tried(
        t,
        b"",
        "e3b0c44298fc1c149afbf4c8996fb92427ae41e4649b934ca495991b7852b855",
    );
    tried(
        t,
        b"abc",
        "ba7816bf8f01cfea414140de5dae2223b00361a396177a9cb410ff61f20015ad",
    );
    tried(
        t,
        b"abcdbcdecdefdefgefghfghighijhijkijkljklmklmnlmnomnopnopq",
        "248d6a61d20638b8e5c026930c3e6039a33ce45964ff2167f6ecedd419db06c1",
    );
    tried(
        t,
        b"abcdefghbcdefghicdefghijdefghijkefghijklfghijklmghijklmnhijklmnoijklmnopjklmnopqklmnopqrlmnopqrsmnopqrstnopqrstu",
        "cf5b16a778af8380036ce59e7b0492370b249b11e8f07a51afac45037afee9d1",
    );
    tried(
        t,
        &many,
        "cdc76e5c9914fb9281a1c7e284d73e67f1809a48a497200e046d39ccc7112cd0",
    );
}

// The bytes 0, 1, 2, ..
fn ascending() -> [u8; 128] {
    let mut s = [0u8; 128];
    for i in 0..128 {
        s[i] = i as u8;
    }
    s
}

// One vector more: the first n of those bytes.
fn edge(t: &mut Tally, n: usize, expected: &str)
    requires { n ≤ 128 }
    ensures run { t.new.run ≡ (t.old.run + 1) % 2 ^ 64 }
    ensures failed { t.new.failed ≤ t.old.failed + 1 }
{
    let s = ascending();
    tried(t, &s[..n], expected);
}

// Lengths at which the padding just fits into the first block, or just does not.
fn padding_edges(t: &mut Tally)
    ensures run { t.new.run ≡ (t.old.run + 3) % 2 ^ 64 }
    ensures failed { t.new.failed ≤ t.old.failed + 3 }
{
    edge(
        t,
        55,
        "463eb28e72f82e0a96c0a4cc53690c571281131f672aa229e0d45ae59b598b59",
    );
    edge(
        t,
        56,
        "da2ae4d6b36748f2a318f23e7ab1dfdf45acdc9d049bd80e59de82a60895f562",
    );
    edge(
        t,
        57,
        "2fe741af801cc238602ac0ec6a7b0c3a8a87c7fc7d7f02a3fe03d1c12eac4d8f",
    );
}

// Lengths at which the message just fills the first block, or just does not.
fn block_edges(t: &mut Tally)
    ensures run { t.new.run ≡ (t.old.run + 3) % 2 ^ 64 }
    ensures failed { t.new.failed ≤ t.old.failed + 3 }
{
    edge(
        t,
        63,
        "29af2686fd53374a36b0846694cc342177e428d1647515f078784d69cdb9e488",
    );
    edge(
        t,
        64,
        "fdeab9acf3710362bd2658cdc9a29e8f9c757fcf9811603a8c447cd1d9151108",
    );
    edge(
        t,
        65,
        "4bfd2c8b6f1eec7a2afeb48b934ee4b2694182027e6d0fc075074f2fabb31781",
    );
}

// Both one block later.
fn two_block_edges(t: &mut Tally)
    ensures run { t.new.run ≡ (t.old.run + 4) % 2 ^ 64 }
    ensures failed { t.new.failed ≤ t.old.failed + 4 }
{
    edge(
        t,
        119,
        "da18797ed7c3a777f0847f429724a2d8cd5138e6ed2895c3fa1a6d39d18f7ec6",
    );
    edge(
        t,
        120,
        "f52b23db1fbb6ded89ef42a23ce0c8922c45f25c50b568a93bf1c075420bbb7c",
    );
    edge(
        t,
        127,
        "92ca0fa6651ee2f97b884b7246a562fa71250fedefe5ebf270d31c546bfea976",
    );
    edge(
        t,
        128,
        "471fb943aa23c511f6f72f8d1652d9c880cfa392ad80503120547703e56a2be5",
    );
}
