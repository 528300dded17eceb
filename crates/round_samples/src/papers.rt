// The graph files and messages of document 01, laid out byte by byte as it says, and proved to be what the definitions of the formats give.
// The messages are for house 1 and bay 12.
ghost use Rattle.std.specs.Prelude.{◌≡◌, ◌<◌, [], ◌++◌, slice_set};
ghost use Rattle.digest.specs.Sha256.{sha256};
ghost use Rattle.round_cases.specs.Cases.{G0, G1, P};
ghost use Rattle.round_samples.specs.Papers.{proposal_at, vote_of, Z1};

use base::put_all;

// A proposal of proposer 0.
pub fn proposal(round: u8, value: u8) -> [u8; 17]
    ensures { result ≡ proposal_at round value }
{
    [0, 15, 1, 1, 0, 1, 0, 12, 0, 0, 0, 0, round, 0, 0, 0, value]
}

// P: round number 5, value 70.
pub fn p() -> [u8; 17]
    ensures { result ≡ P }
{
    proposal(5, 70)
}

// P with another byte in one place.
pub fn p_with(at: usize, x: u8) -> [u8; 17]
    requires { at < 17 }
    ensures { result ≡ slice_set P at x }
{
    let mut m = p();
    m[at] = x;
    m
}

// The 32 bytes that another SHA-256 gives for P.
pub fn p_id() -> [u8; 32]
    ensures { result ≡ sha256 P }
{
    let mut id = [0u8; 32];
    put_all(
        &mut id,
        0,
        b"\x80\x2d\x94\x07\xa7\x3a\x05\x86\xfa\x8e\x1c\x73\x2f\x55\xbd\x6d\xf1\x06\x15\xd8\x35\xef\x6a\xc9\xb4\xf5\xa6\x31\xc5\xdf\x71\x35",
    );
    id
}

// The 32 bytes that another SHA-256 gives for z1.
pub fn z1_id() -> [u8; 32]
    ensures { result ≡ sha256 Z1 }
{
    let mut id = [0u8; 32];
    put_all(
        &mut id,
        0,
        b"\x1f\x1f\xd2\x4c\x68\xb3\x5c\xac\x05\xc6\x4d\xd8\xc1\x24\x01\x41\x1d\xd8\x55\xb3\x8b\x1c\xca\x7a\x20\x42\x25\x6d\xef\x58\x25\x4f",
    );
    id
}

// An acceptor message that names no previous one, with one reference.
pub fn first_vote(signer: u8, id: [u8; 32]) -> [u8; 43]
    ensures { result ≡ vote_of signer [] 1 id }
{
    let mut m = [0u8; 43];
    put_all(&mut m, 0, &[0, 41, 1, 2, 0, 1, 0, 12, signer, 0, 1]);
    put_all(&mut m, 11, &id);
    m
}

// An acceptor message that names a previous one, with one reference.
pub fn next_vote(signer: u8, previous: [u8; 32], id: [u8; 32]) -> [u8; 75]
    ensures { result ≡ vote_of signer previous 1 id }
{
    let mut m = [0u8; 75];
    put_all(&mut m, 0, &[0, 73, 1, 2, 0, 1, 0, 12, signer, 1]);
    put_all(&mut m, 10, &previous);
    put_all(&mut m, 42, &[1]);
    put_all(&mut m, 43, &id);
    m
}

// An acceptor message of acceptor 0 that names a previous one, with two references in this order.
pub fn joined_vote(previous: [u8; 32], low: [u8; 32], high: [u8; 32]) -> [u8; 107]
    ensures { result ≡ vote_of 0 previous 2 (low ++ high) }
{
    let mut m = [0u8; 107];
    put_all(&mut m, 0, &[0, 105, 1, 2, 0, 1, 0, 12, 0, 1]);
    put_all(&mut m, 10, &previous);
    put_all(&mut m, 42, &[2]);
    put_all(&mut m, 43, &low);
    put_all(&mut m, 75, &high);
    m
}

// An acceptor's 1b on P: no previous message, and one reference, SHA-256 of P.
pub fn on_p(signer: u8) -> [u8; 43]
    ensures { result ≡ vote_of signer [] 1 (sha256 P) }
{
    first_vote(signer, p_id())
}

// z1 is acceptor 0's.
pub fn z1() -> [u8; 43]
    ensures { result ≡ Z1 }
{
    on_p(0)
}

// z2: z1 as the previous message and as the one reference.
pub fn z2() -> [u8; 75]
    ensures { result ≡ vote_of 0 (sha256 Z1) 1 (sha256 Z1) }
{
    next_vote(0, z1_id(), z1_id())
}

// One acceptor, one learner.
pub fn g0() -> [u8; 11]
    ensures { result ≡ G0 }
{
    [0, 9, 1, 1, 1, 1, 0, 1, 1, 0, 1]
}

// Four acceptors, two learners; all five lists are 7, 11, 13, 14.
pub fn g1() -> [u8; 50]
    ensures { result ≡ G1 }
{
    let mut g = [0u8; 50];
    put_all(
        &mut g,
        0,
        b"\x00\x30\x01\x04\x02\x04\x00\x07\x00\x0b\x00\x0d\x00\x0e\x04\x00\x07\x00\x0b\x00\x0d\x00\x0e\x04\x00\x07\x00\x0b\x00\x0d\x00\x0e\x04\x00\x07\x00\x0b\x00\x0d\x00\x0e\x04\x00\x07\x00\x0b\x00\x0d\x00\x0e",
    );
    g
}
