// Sample graph files, each with the answer that document 01 gives it. Prints how many failed.
#![tactic(auto)]

ghost use Rattle.std.specs.Prelude.{length, ◌≤◌};

use base::put16;
use graph::{Graph, LISTS, MASK_SLOTS};
use std::io;

// Whether the file has another answer than this one: 0 for accepted, or the row's number.
fn fails(file: &[u8], answer: u32) -> bool {
    let number = match graphfile::check(file) {
        Ok(()) => 0,
        Err(refusal) => u32::from(refusal),
    };
    number != answer
}

// How many of the files have another answer than the one beside them.
fn count_failed(samples: &[(&[u8], u32)]) -> usize
    ensures { result ≤ length samples.now }
{
    samples
        .iter()
        .filter(|(file, answer)| fails(file, *answer))
        .count()
}

// The rows 1 to 7, each with its example.
fn rows() -> usize
    ensures { result ≤ 9 }
{
    let samples: [(&[u8], u32); 9] = [
        // G0
        (b"\x00\x09\x01\x01\x01\x01\x00\x01\x01\x00\x01", 0),
        // G1
        (
            b"\x00\x30\x01\x04\x02\x04\x00\x07\x00\x0b\x00\x0d\x00\x0e\x04\x00\x07\x00\x0b\x00\x0d\x00\x0e\x04\x00\x07\x00\x0b\x00\x0d\x00\x0e\x04\x00\x07\x00\x0b\x00\x0d\x00\x0e\x04\x00\x07\x00\x0b\x00\x0d\x00\x0e",
            0,
        ),
        // 1: bytes short
        (b"\x00\x0f\x01", 1),
        // 2: version 2
        (b"\x00\x09\x02\x01\x01\x01\x00\x01\x01\x00\x01", 2),
        // 3: no acceptor
        (b"\x00\x09\x01\x00\x01\x01\x00\x01\x01\x00\x01", 3),
        // 4: one mask twice
        (b"\x00\x0b\x01\x02\x01\x02\x00\x01\x00\x01\x01\x00\x01", 4),
        // 5: quorum mask 2 in G0
        (b"\x00\x09\x01\x01\x01\x01\x00\x02\x01\x00\x01", 5),
        // 6: learner 0's quorums 3, 13, 14 in G1
        (
            b"\x00\x2e\x01\x04\x02\x03\x00\x03\x00\x0d\x00\x0e\x04\x00\x07\x00\x0b\x00\x0d\x00\x0e\x04\x00\x07\x00\x0b\x00\x0d\x00\x0e\x04\x00\x07\x00\x0b\x00\x0d\x00\x0e\x04\x00\x07\x00\x0b\x00\x0d\x00\x0e",
            6,
        ),
        // 7: three learners, every safe list 15, but 0-2 empty
        (
            b"\x00\x2e\x01\x04\x03\x04\x00\x07\x00\x0b\x00\x0d\x00\x0e\x04\x00\x07\x00\x0b\x00\x0d\x00\x0e\x04\x00\x07\x00\x0b\x00\x0d\x00\x0e\x01\x00\x0f\x01\x00\x0f\x00\x01\x00\x0f\x01\x00\x0f\x01\x00\x0f",
            7,
        ),
    ];
    count_failed(&samples)
}

// The outer length, and fields that are absent.
fn lengths() -> usize
    ensures { result ≤ 11 }
{
    let samples: [(&[u8], u32); 11] = [
        // no byte
        (b"", 1),
        // one byte
        (b"\x00", 1),
        // 00 00
        (b"\x00\x00", 1),
        // 00 01 02
        (b"\x00\x01\x02", 2),
        // 00 01 01
        (b"\x00\x01\x01", 1),
        // 00 02 01 00
        (b"\x00\x02\x01\x00", 3),
        // one too few said
        (b"\x00\x08\x01\x01\x01\x01\x00\x01\x01\x00\x01", 1),
        // one too many said
        (b"\x00\x0a\x01\x01\x01\x01\x00\x01\x01\x00\x01", 1),
        // a byte left over
        (b"\x00\x0a\x01\x01\x01\x01\x00\x01\x01\x00\x01\x00", 1),
        // a byte left over in a graph that is not valid
        (
            b"\x00\x13\x01\x02\x02\x01\x00\x01\x01\x00\x02\x01\x00\x01\x01\x00\x01\x01\x00\x02\x00",
            1,
        ),
        // an order that is wrong before a byte left over
        (
            b"\x00\x0c\x01\x02\x01\x02\x00\x01\x00\x01\x01\x00\x01\x00",
            4,
        ),
    ];
    count_failed(&samples)
}

// Counts at the ends of their ranges.
fn counts() -> usize
    ensures { result ≤ 9 }
{
    let samples: [(&[u8], u32); 9] = [
        // 0 acceptors
        (b"\x00\x09\x01\x00\x01\x01\x00\x01\x01\x00\x01", 3),
        // 17 acceptors
        (b"\x00\x09\x01\x11\x01\x01\x00\x01\x01\x00\x01", 3),
        // 16 acceptors
        (b"\x00\x09\x01\x10\x01\x01\x80\x00\x01\x80\x00", 0),
        // 0 learners
        (b"\x00\x03\x01\x01\x00", 3),
        // 9 learners
        (
            b"\x00\x1e\x01\x01\x09\x01\x00\x01\x01\x00\x01\x01\x00\x01\x01\x00\x01\x01\x00\x01\x01\x00\x01\x01\x00\x01\x01\x00\x01\x01\x00\x01",
            3,
        ),
        // no quorum
        (b"\x00\x07\x01\x01\x01\x00\x01\x00\x01", 3),
        // nine quorums
        (
            b"\x00\x16\x01\x09\x01\x09\x00\x01\x00\x02\x00\x04\x00\x08\x00\x10\x00\x20\x00\x40\x00\x80\x01\x00",
            3,
        ),
        // nine safe masks
        (
            b"\x00\x19\x01\x09\x01\x01\x01\xff\x09\x00\x01\x00\x02\x00\x04\x00\x08\x00\x10\x00\x20\x00\x40\x00\x80\x01\x00",
            3,
        ),
        // an empty safe list
        (b"\x00\x07\x01\x01\x01\x01\x00\x01\x00", 0),
    ];
    count_failed(&samples)
}

// One mask after the other.
fn masks() -> usize
    ensures { result ≤ 10 }
{
    let samples: [(&[u8], u32); 10] = [
        // a bad mask before a file that ends early
        (b"\x00\x06\x01\x01\x01\x02\x00\x02", 5),
        // half a mask
        (b"\x00\x05\x01\x01\x01\x01\x00", 1),
        // zero
        (b"\x00\x09\x01\x01\x01\x01\x00\x00\x01\x00\x01", 5),
        // zero in second place
        (b"\x00\x0b\x01\x02\x01\x02\x00\x01\x00\x00\x01\x00\x01", 5),
        // an acceptor that the file lacks, in second place
        (b"\x00\x0b\x01\x02\x01\x02\x00\x01\x00\x04\x01\x00\x01", 5),
        // an unknown acceptor at the top
        (b"\x00\x09\x01\x0f\x01\x01\x80\x00\x01\x00\x01", 5),
        // 1, 4, 3
        (
            b"\x00\x0d\x01\x03\x01\x03\x00\x01\x00\x04\x00\x03\x01\x00\x01",
            4,
        ),
        // 1, 2, 5
        (
            b"\x00\x0d\x01\x03\x01\x03\x00\x01\x00\x02\x00\x05\x01\x00\x01",
            5,
        ),
        // equal masks in a safe list
        (b"\x00\x0b\x01\x02\x01\x01\x00\x03\x02\x00\x01\x00\x01", 4),
        // containing in a safe list
        (b"\x00\x0b\x01\x02\x01\x01\x00\x03\x02\x00\x01\x00\x03", 5),
    ];
    count_failed(&samples)
}

// Valid and condensed.
fn graphs() -> usize
    ensures { result ≤ 7 }
{
    let samples: [(&[u8], u32); 7] = [
        // two quorums of one learner apart
        (b"\x00\x0b\x01\x02\x01\x02\x00\x01\x00\x02\x01\x00\x03", 6),
        // two learners apart, no edge
        (
            b"\x00\x10\x01\x02\x02\x01\x00\x01\x01\x00\x02\x01\x00\x01\x00\x01\x00\x02",
            0,
        ),
        // two learners apart, an edge
        (
            b"\x00\x12\x01\x02\x02\x01\x00\x01\x01\x00\x02\x01\x00\x01\x01\x00\x03\x01\x00\x02",
            6,
        ),
        // a non-empty 0-1 with an empty 0-0
        (
            b"\x00\x10\x01\x01\x02\x01\x00\x01\x01\x00\x01\x00\x01\x00\x01\x01\x00\x01",
            7,
        ),
        // not valid and not condensed
        (
            b"\x00\x10\x01\x02\x02\x01\x00\x01\x01\x00\x02\x00\x01\x00\x03\x01\x00\x02",
            6,
        ),
        // only 0-0, 0-1 and 1-1 in the order of pairs
        (
            b"\x00\x2a\x01\x04\x03\x04\x00\x07\x00\x0b\x00\x0d\x00\x0e\x04\x00\x07\x00\x0b\x00\x0d\x00\x0e\x04\x00\x07\x00\x0b\x00\x0d\x00\x0e\x01\x00\x0f\x01\x00\x0f\x00\x01\x00\x0f\x00\x00",
            0,
        ),
        // another order
        (
            b"\x00\x2a\x01\x04\x03\x04\x00\x07\x00\x0b\x00\x0d\x00\x0e\x04\x00\x07\x00\x0b\x00\x0d\x00\x0e\x04\x00\x07\x00\x0b\x00\x0d\x00\x0e\x01\x00\x0f\x00\x01\x00\x0f\x00\x01\x00\x0f\x00",
            7,
        ),
    ];
    count_failed(&samples)
}

// G1 cut off after each of its bytes, the outer length put right, so that it ends before a field, or within one.
fn cut_short() -> usize
    ensures { result ≤ 48 }
{
    let mut file =
        *b"\x00\x30\x01\x04\x02\x04\x00\x07\x00\x0b\x00\x0d\x00\x0e\x04\x00\x07\x00\x0b\x00\x0d\x00\x0e\x04\x00\x07\x00\x0b\x00\x0d\x00\x0e\x04\x00\x07\x00\x0b\x00\x0d\x00\x0e\x04\x00\x07\x00\x0b\x00\x0d\x00\x0e";
    let mut n = 0;
    for k in 2..50 {
        put16(&mut file, 0, k - 2);
        n += usize::from(fails(&file[..k], 1));
    }
    n
}

// The largest file: 16 acceptors, 8 learners, and in each of the 44 lists eight masks, each without one of the acceptors 7 to 0.
fn largest() -> bool {
    let list = [
        8u8, 255, 127, 255, 191, 255, 223, 255, 239, 255, 247, 255, 251, 255, 253, 255, 254,
    ];
    let mut file = [0u8; 753];
    file[..5].copy_from_slice(b"\x02\xef\x01\x10\x08");
    for part in file[5..].chunks_exact_mut(17) {
        part.copy_from_slice(&list);
    }
    fails(&file, 0)
}

// G0 with 65,536 bytes more, which its outer length of two bytes cannot say.
fn far_too_long() -> bool {
    let mut file = [0u8; 65547];
    file[..11].copy_from_slice(b"\x00\x09\x01\x01\x01\x01\x00\x01\x01\x00\x01");
    fails(&file, 1)
}

// Whether a graph, written to a buffer, takes another number of bytes than `len`, or is written where `len` is 0.
fn writes_other(graph: &Graph, buf: &mut [u8], len: usize) -> bool {
    graphfile::write(graph, buf).unwrap_or(0) != len
}

// The graph of zeros written, which a file can say and which is no file's; G0 written again; a buffer too short.
fn writing() -> usize
    ensures { result ≤ 6 }
{
    let nothing = Graph {
        acceptors: 0,
        learners: 0,
        counts: [0; LISTS],
        masks: [0; MASK_SLOTS],
    };
    let g0 = graphfile::read_contents(b"\x00\x09\x01\x01\x01\x01\x00\x01\x01\x00\x01").unwrap_or(
        nothing,
    );
    let mut zeros = [9u8; 5];
    let mut buf = [9u8; 11];
    let mut short = [9u8; 10];
    let failed = [
        writes_other(&nothing, &mut zeros, 5),
        fails(&zeros, 3),
        writes_other(&g0, &mut buf, 11),
        fails(&buf, 0),
        writes_other(&g0, &mut short, 0),
        short[0] != 9,
    ];
    failed.iter().filter(|f| **f).count()
}

fn main(rt: HostRuntime) -> io::Result<()> {
    let n = rows()
        + lengths()
        + counts()
        + masks()
        + graphs()
        + cut_short()
        + usize::from(largest())
        + usize::from(far_too_long())
        + writing();
    println!(rt; "{n} of 102 failed")
}
