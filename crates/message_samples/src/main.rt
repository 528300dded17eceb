// Runs document 01's examples of messages and the cases around them, and prints how many failed.
// The bytes and the numbers expected are written out from the document, not made by the library.
#![tactic(auto)]

ghost use Rattle.std.specs.Prelude.{◌+◌, ◌*◌, ◌<◌, ◌≤◌};

use message::Message;
use message::ballot::{meant_round, round_of, value_of};
use std::io;
use tally::Tally;

// Room for the longest message, and for bytes behind it.
type Room = [u8; 4300];

fn main(rt: HostRuntime) -> io::Result<()> {
    let mut t = Tally::new();
    writing(&mut t);
    rows(&mut t);
    ranges(&mut t);
    ends(&mut t);
    references(&mut t);
    println!(rt; "{} samples, {} failed", t.run, t.failed)
}

// 0 for a message that is read, else the number that turns it down.
fn code(bytes: &[u8]) -> u32 {
    match message::read(bytes) {
        Ok(_) => 0,
        Err(r) => u32::from(r),
    }
}

// P: house 1, bay 12, proposer 0, round number 5, value 70.
fn p() -> [u8; 17] {
    [0, 15, 1, 1, 0, 1, 0, 12, 0, 0, 0, 0, 5, 0, 0, 0, 70]
}

// Whether the bytes are those of a proposal with this round number by proposer 0 for house 1 and bay 12 with value 70.
fn says(bytes: &[u8], round: u32) -> bool {
    match message::read(bytes) {
        Ok(Message::OfProposer(p)) => {
            p.house == 1
                && p.bay == 12
                && p.proposer == 0
                && round_of(p.ballot) == round
                && value_of(p.ballot) == 70
        }
        _ => false,
    }
}

// Writes a proposal like P with this round number: the bytes written, or the number that turns the writer down.
fn write_p(round: u32, buf: &mut [u8]) -> Result<usize, u32> {
    message::write_proposal(1, 12, 0, round, 70, buf).map_err(u32::from)
}

// P written; round number 0 as the 1 that it stands for; a buffer too short; a byte behind the message.
fn writing(t: &mut Tally) {
    let want = p();
    let mut buf = [9u8; 18];
    t.tried(write_p(5, &mut buf) == Ok(17));
    t.tried(buf[..17] == want[..]);
    t.tried(buf[17] == 9);
    t.tried(says(&want, 5));
    let mut zero = [9u8; 17];
    t.tried(write_p(meant_round(0), &mut zero) == Ok(17));
    t.tried(says(&zero, 1));
    let mut short = [9u8; 16];
    t.tried(write_p(5, &mut short) == Err(17));
    t.tried(short == [9u8; 16]);
}

// The rows of the table.
fn rows(t: &mut Tally) {
    t.tried(code(&p()) == 0);
    t.tried(code(&[0, 15, 1]) == 1);
    let mut version = p();
    version[2] = 2;
    t.tried(code(&version) == 2);
    let mut kind = p();
    kind[3] = 3;
    t.tried(code(&kind) == 3);
    version[3] = 3;
    t.tried(code(&version) == 2);
    t.tried(code(&[0, 2, 1, 3]) == 3);
    t.tried(code(&[0, 1, 2]) == 2);
    let round = [0, 15, 1, 1, 0, 1, 0, 12, 0, 0, 0, 0, 0, 0, 0, 0, 70];
    t.tried(says(&round, 0));
}

// The same with the outer length of len bytes in front.
fn framed(mut m: Room, len: usize) -> Room
    requires { (2 ≤ len) × (len < 65536) }
{
    let [high, low] = ((len - 2) as u16).to_be_bytes();
    m[0] = high;
    m[1] = low;
    m
}

// An acceptor message of acceptor 0 for house 1 and bay 12 as document 01 lays it out, but for its outer length: n ids stand
// behind the count, which stands at `at`, and the id in place k begins with the byte k + 1.
fn acceptor(marker: u8, at: usize, count: u8, n: usize) -> Room
    requires { (10 ≤ at) × ((at ≤ 42) × (n ≤ 130)) }
{
    let mut m = [0u8; 4300];
    m[2] = 1;
    m[3] = 2;
    m[5] = 1;
    m[7] = 12;
    m[9] = marker;
    m[at] = count;
    for k in 0..n {
        m[at + 1 + 32 * k] = (k + 1) as u8;
    }
    m
}

// The number for the first len bytes, with the right outer length in front.
fn code_of(m: Room, len: usize) -> u32
    requires { (2 ≤ len) × (len ≤ 4300) }
{
    code(&framed(m, len)[..len])
}

// Counts and markers.
fn ranges(t: &mut Tally) {
    // 128 references are read, with a previous id and with none; 129 is 3.
    t.tried(code_of(acceptor(0, 10, 128, 128), 4107) == 0);
    t.tried(code_of(acceptor(1, 42, 128, 128), 4139) == 0);
    t.tried(code_of(acceptor(0, 10, 129, 129), 4139) == 3);
    t.tried(code_of(acceptor(1, 42, 129, 129), 4171) == 3);
    // A count out of range comes before the length behind it.
    t.tried(code_of(acceptor(0, 10, 129, 1), 43) == 3);
    t.tried(code_of(acceptor(0, 10, 0, 0), 11) == 3);
    t.tried(code_of(acceptor(0, 10, 0, 1), 43) == 3);
    t.tried(code_of(acceptor(0, 10, 2, 1), 43) == 1);
    t.tried(code_of(acceptor(0, 10, 1, 2), 75) == 1);
    // A marker above 1, also as the last byte.
    t.tried(code_of(acceptor(2, 10, 1, 1), 43) == 3);
    t.tried(code_of(acceptor(2, 10, 1, 1), 10) == 3);
    // One id twice, and a pair that descends in its last byte.
    let mut twice = acceptor(0, 10, 2, 2);
    twice[43] = 1;
    t.tried(code_of(twice, 75) == 4);
    twice[42] = 1;
    t.tried(code_of(twice, 75) == 4);
    twice[74] = 2;
    t.tried(code_of(twice, 75) == 0);
    // The length comes before the order.
    twice[74] = 0;
    t.tried(code_of(twice, 76) == 1);
}

// Every cut of a message, with the right outer length in front: 1.
fn cuts(t: &mut Tally, m: Room, len: usize)
    requires { len ≤ 4300 }
{
    for n in 2..len {
        t.tried(code_of(m, n) == 1);
    }
}

// Bytes ending before each field, and bytes left over.
fn ends(t: &mut Tally) {
    t.tried(code(b"") == 1);
    t.tried(code(&[0]) == 1);
    cuts(t, acceptor(0, 10, 2, 2), 75);
    cuts(t, acceptor(1, 42, 2, 2), 107);
    t.tried(code_of(acceptor(0, 10, 2, 2), 76) == 1);
    t.tried(code_of(acceptor(1, 42, 2, 2), 108) == 1);
    let mut proposal = acceptor(0, 10, 0, 0);
    proposal[3] = 1;
    cuts(t, proposal, 17);
    t.tried(code_of(proposal, 17) == 0);
    t.tried(code_of(proposal, 18) == 1);
    t.tried(long() == 1);
}

// P with 65,536 bytes more: a length that is cut to 16 bits would be right.
fn long() -> u32 {
    let mut m = [0u8; 65553];
    m[1] = 15;
    m[2] = 1;
    m[3] = 1;
    code(&m)
}

// Where the n-th reference stands, or the number that turns it down.
fn place(m: Room, len: usize, n: usize) -> Result<usize, u32>
    requires { (2 ≤ len) × (len ≤ 4300) }
{
    message::reference(&framed(m, len)[..len], n).map_err(u32::from)
}

// The first byte of the n-th reference, or the number that turns it down.
fn first_byte(m: Room, len: usize, n: usize) -> Result<u8, u32>
    requires { (2 ≤ len) × (len ≤ 4300) }
{
    let mut id = [0u8; 32];
    message::copy_reference(&framed(m, len)[..len], n, &mut id).map_err(u32::from)?;
    Ok(id[0])
}

// The n-th reference.
fn references(t: &mut Tally) {
    let plain = acceptor(0, 10, 3, 3);
    t.tried(place(plain, 107, 0) == Ok(11));
    t.tried(place(plain, 107, 2) == Ok(75));
    t.tried(place(plain, 107, 3) == Err(17));
    t.tried(place(plain, 107, 0xffff_ffff_ffff_ffff) == Err(17));
    t.tried(first_byte(plain, 107, 1) == Ok(2));
    let linked = acceptor(1, 42, 3, 3);
    t.tried(place(linked, 139, 0) == Ok(43));
    t.tried(first_byte(linked, 139, 2) == Ok(3));
    t.tried(first_byte(linked, 139, 3) == Err(17));
    let mut proposal = acceptor(0, 10, 0, 0);
    proposal[3] = 1;
    t.tried(place(proposal, 17, 0) == Err(17));
    // The message's own faults come first.
    t.tried(place(plain, 106, 9) == Err(1));
    let mut version = plain;
    version[2] = 0;
    t.tried(place(version, 107, 9) == Err(2));
    t.tried(place(acceptor(2, 10, 3, 3), 107, 9) == Err(3));
}
