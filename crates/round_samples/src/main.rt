// Runs document 01's sample rounds and its rows for rounds, and prints how many failed.
// The bytes and the numbers expected are written out from the document, not made by the library.
#![tactic(auto)]

use calls::{Round, Step, after, cramped, differing, given, opening, start, told};
use digest::sha256;
use papers::{
    first_vote, g0, g1, joined_vote, next_vote, on_p, p, p_id, p_with, proposal, z1, z1_id, z2,
};
use roundbytes::{COUNTS_AT, HELD_AT, LAST_AT, OWN_AT, RECENT_AT, REFERENCES_AT};
use std::io;
use tally::Tally;

mod calls;
mod papers;

// An acceptor number that stands for none: the round only listens.
const LISTENING: u32 = 256;

// What a delivery with a reply answers, less the reply's length.
const REPLY: u64 = 256;

// The states of a report's page.
const UNDECIDED: u64 = 0;

const DECIDED: u64 = 1;

const SPLIT: u64 = 2;

// The ballots of round number 5 with value 70, which is P's, and of 6 with 71.
const B5_70: u64 = 0x0000_0005_0000_0046;

const B6_71: u64 = 0x0000_0006_0000_0047;

fn main(rt: HostRuntime) -> io::Result<()> {
    let mut t = Tally::new();
    whole_rounds(&mut t);
    rows(&mut t);
    println!(rt; "{} samples, {} failed", t.run, t.failed)
}

// Rounds from the first proposal to a decision, with their reports.
fn whole_rounds(t: &mut Tally) {
    samples(t);
    returned(t);
    decision(t);
    bound(t);
    splits(t);
    quorums(t);
    waiting(t);
}

// The rows of the table "When a call is turned down".
fn rows(t: &mut Tally) {
    readings(t);
    known(t);
    references(t);
    chains(t);
    under_g1(t);
    full_listening(t);
    full_voting(t);
    openings(t);
    learners(t);
    buffers(t);
    handed(t);
}

// A delivery that gives this number, and a reply buffer that has these bytes at its front and behind them what was there.
fn replied(t: &mut Tally, round: Round, bytes: &[u8], expected: u64, reply: &[u8]) {
    let s = given(round, bytes);
    t.tried(s.number == expected);
    t.tried(differing(&s.reply, reply) == 0);
}

// A delivery without a reply: 0 or the number that turns it down, and every byte of the reply buffer is as it was.
fn no_reply(t: &mut Tally, round: Round, bytes: &[u8], expected: u64) {
    replied(t, round, bytes, expected, b"");
}

// A report that is turned down by this number.
fn not_reported(t: &mut Tally, round: Round, learner: u8, expected: u64) {
    let v = told(round, learner);
    t.tried(v.number == expected);
}

// A report that is not turned down: its page's state and ballots.
fn reported(t: &mut Tally, round: Round, learner: u8, state: u64, least: u64, other: u64) {
    let v = told(round, learner);
    t.tried(v.number == 0);
    t.tried(v.state == state);
    t.tried(v.least == least);
    t.tried(v.other == other);
}

// The sample round under G0: P gives z1, 43 bytes, and z1 gives z2, 75 bytes.
fn samples(t: &mut Tally) {
    let r0 = start(&g0(), 0);
    replied(t, r0, &p(), REPLY + 43, &z1());
    let r1 = after(r0, &p());
    reported(t, r1, 0, UNDECIDED, 0, 0);
    // z1 awaits its return: no arriving message may refer to it.
    no_reply(t, r1, &z2(), 11);
    replied(t, r1, &z1(), REPLY + 75, &z2());
    reported(t, after(r1, &z1()), 0, UNDECIDED, 0, 0);
}

// The acceptor of G0 after P and z1; z2 awaits its return.
fn after_z1() -> Round {
    after(after(start(&g0(), 0), &p()), &z1())
}

// z2 returns to its sender. It has no reply, since another vote would have the same learners; nothing more is held, and recent holds z2, place 2,
// alone. Nor does anybody take such a vote, which refers to z2 and names it.
fn returned(t: &mut Tally) {
    let r2 = after_z1();
    no_reply(t, r2, &z2(), 0);
    let r3 = after(r2, &z2());
    t.tried(r3.bytes[HELD_AT] == 3);
    t.tried(r3.bytes[RECENT_AT] == 0);
    t.tried(r3.bytes[RECENT_AT + 1] == 0);
    t.tried(r3.bytes[RECENT_AT + 2] == 1);
    let id = sha256(&z2());
    no_reply(t, r3, &next_vote(0, id, id), 15);
    // What its sender says next refers to z2 and names it.
    replied(t, r3, &proposal(6, 70), REPLY + 107, &joined(70));
}

// The sample round goes on: z2 decides.
fn decision(t: &mut Tally) {
    let r3 = after(after_z1(), &z2());
    reported(t, r3, 0, DECIDED, B5_70, 0);
    // A lower round number is accepted, with no reply.
    no_reply(t, r3, &proposal(3, 70), 0);
    reported(t, after(r3, &proposal(3, 70)), 0, DECIDED, B5_70, 0);
    no_reply(t, r3, &z1(), 10);
}

// Acceptor 0's 1b on round number 6 with this value, after z2. The id of z2 is the higher one for the values used here.
fn joined(value: u8) -> [u8; 107] {
    let id = sha256(&z2());
    joined_vote(id, sha256(&proposal(6, value)), id)
}

// Round number 6 with this value, for an acceptor that voted for P by z2, which is not back yet. `expected` is what the return of z2 gives. That of
// the 1b on the proposal gives no vote more: either there was none, or another one would repeat it.
fn outbid(t: &mut Tally, r: Round, value: u8, expected: u64) {
    replied(t, r, &proposal(6, value), REPLY + 107, &joined(value));
    // The 1b refers to z2.
    let a = after(r, &proposal(6, value));
    no_reply(t, a, &joined(value), 11);
    let b = given(a, &z2());
    t.tried(b.number == expected);
    let c = given(b.round, &joined(value));
    t.tried(c.number == 0);
    reported(t, c.round, 0, DECIDED, B5_70, 0);
}

// An acceptor that voted for value 70 does not vote for 71 in a higher ballot, but does for 70 again. A proposal that it had no reply to is
// no reference of its later replies.
fn bound(t: &mut Tally) {
    let r = after(after_z1(), &proposal(3, 70));
    outbid(t, r, 71, 0);
    outbid(t, r, 70, REPLY + 107);
}

// The round after a proposal, acceptor 0's 1b on it, which names no previous message, and the 2a behind that 1b.
fn voted(r: Round, round: u8, value: u8) -> Round {
    let q = proposal(round, value);
    let one = first_vote(0, sha256(&q));
    let id = sha256(&one);
    let a = after(r, &q);
    let b = after(a, &one);
    after(b, &next_vote(0, id, id))
}

// Reports over several ballots that decide: the least one, and for two values the least of the other, in whatever order they came.
fn splits(t: &mut Tally) {
    let r = start(&g0(), LISTENING);
    let low = voted(r, 5, 70);
    let both = voted(low, 6, 70);
    reported(t, both, 0, DECIDED, B5_70, 0);
    reported(t, voted(voted(r, 6, 70), 5, 70), 0, DECIDED, B5_70, 0);
    reported(t, voted(low, 6, 71), 0, SPLIT, B5_70, B6_71);
    reported(t, voted(voted(r, 6, 71), 5, 70), 0, SPLIT, B5_70, B6_71);
    reported(t, voted(both, 6, 71), 0, SPLIT, B5_70, B6_71);
}

// A round under G1 that heard P.
fn heard_p(own: u32) -> Round {
    after(start(&g1(), own), &p())
}

// The round after an acceptor's 1b on P.
fn heard(round: Round, signer: u8) -> Round {
    after(round, &on_p(signer))
}

// Under G1, an acceptor that heard P and the 1bs of itself and of two others. The last of them gives it a quorum.
fn vote_of(own: u8, second: u8, third: u8) -> Step {
    let one = heard(heard_p(own as u32), own);
    given(heard(one, second), &on_p(third))
}

// The round after the 2a that an acceptor sent: the first 139 bytes, as it names a previous message and has three references.
fn after_vote(round: Round, v: Step) -> Round {
    after(round, &v.reply[..139])
}

// The same report for both learners of G1.
fn agreed(t: &mut Tally, round: Round, state: u64, least: u64) {
    reported(t, round, 0, state, least, 0);
    reported(t, round, 1, state, least, 0);
}

// A decision under G1: three 1bs let an acceptor vote, and three 2as decide for both learners; so do four, which are no listed mask. A fourth 1b gives
// no learner more, and so no vote more.
fn quorums(t: &mut Tally) {
    let v0 = vote_of(0, 1, 2);
    let v1 = vote_of(1, 0, 2);
    let v2 = vote_of(2, 0, 1);
    let v3 = vote_of(3, 0, 1);
    t.tried(v0.number == REPLY + 139);
    t.tried(v1.number == REPLY + 139);
    t.tried(v2.number == REPLY + 139);
    t.tried(v3.number == REPLY + 139);
    let more = given(v0.round, &on_p(3));
    t.tried(more.number == 0);
    let ones = heard(heard(heard(heard(heard_p(LISTENING), 0), 1), 2), 3);
    let two = after_vote(after_vote(ones, v0), v1);
    agreed(t, two, UNDECIDED, 0);
    let three = after_vote(two, v2);
    agreed(t, three, DECIDED, B5_70);
    agreed(t, after_vote(three, v3), DECIDED, B5_70);
}

// A 2a that awaits its return does not count in a report. With those of two others known, the return of the own one decides.
fn waiting(t: &mut Tally) {
    let own = vote_of(0, 1, 2);
    let one = after_vote(own.round, vote_of(1, 0, 2));
    let two = after_vote(one, vote_of(2, 0, 1));
    agreed(t, two, UNDECIDED, 0);
    agreed(t, after_vote(two, own), DECIDED, B5_70);
}

// Rows 1 to 4: what a message says by itself.
fn readings(t: &mut Tally) {
    let r = start(&g0(), 0);
    no_reply(t, r, &[0, 15, 1], 1);
    no_reply(t, r, &p_with(2, 2), 2);
    no_reply(t, r, &p_with(3, 3), 3);
    no_reply(t, r, &joined_vote(p_id(), p_id(), p_id()), 4);
}

// Rows 8 and 10 of a proposal.
fn known(t: &mut Tally) {
    let r = start(&g0(), 0);
    no_reply(t, r, &p_with(5, 4), 8);
    no_reply(t, r, &p_with(7, 13), 8);
    no_reply(t, after(r, &p()), &p(), 10);
    // A call turned down leaves the round as it was: P still gives z1.
    replied(t, after(r, &p_with(5, 4)), &p(), REPLY + 43, &z1());
}

// Rows 9 and 11: acceptor messages on P, before P. A signer that is not in the graph comes first.
fn references(t: &mut Tally) {
    let r = start(&g0(), LISTENING);
    no_reply(t, r, &z1(), 11);
    no_reply(t, r, &on_p(1), 9);
}

// Rows 12 and 14: the previous id is P's; z1 is the previous message and no reference; z1 and P are the references.
fn chains(t: &mut Tally) {
    let one = after(start(&g0(), LISTENING), &p());
    no_reply(t, one, &next_vote(0, p_id(), p_id()), 12);
    let two = after(one, &z1());
    no_reply(t, two, &next_vote(0, z1_id(), p_id()), 12);
    no_reply(t, two, &joined_vote(z1_id(), z1_id(), p_id()), 14);
    no_reply(t, two, &z2(), 0);
}

// Under G1, only z1 beneath: row 15; row 12 for a previous message of another signer; and row 9 for the signer behind the last.
fn under_g1(t: &mut Tally) {
    let r = heard(heard_p(LISTENING), 0);
    no_reply(t, r, &z2(), 15);
    no_reply(t, r, &next_vote(1, z1_id(), z1_id()), 12);
    no_reply(t, r, &on_p(4), 9);
    no_reply(t, r, &on_p(3), 0);
}

// The round after n proposals whose round number is 4. Each is accepted, with no reply.
fn filled(t: &mut Tally, round: Round, n: u8) -> Round {
    let mut r = round;
    for k in 0..n {
        let s = given(r, &proposal(4, k));
        t.tried(s.number == 0);
        r = s.round;
    }
    r
}

// Row 16 in a round that listens, with 128 held: a new proposal and a 1b. What is known already comes first.
fn full_listening(t: &mut Tally) {
    let r = filled(t, start(&g0(), LISTENING), 128);
    no_reply(t, r, &proposal(4, 200), 16);
    no_reply(t, r, &first_vote(0, sha256(&proposal(4, 0))), 16);
    no_reply(t, r, &proposal(4, 0), 10);
}

// Row 16 for an acceptor. P, z1 and 125 proposals without a reply make 127. z1 comes back and has its reply, which makes 128: no room is
// left for the reply to that one.
fn full_voting(t: &mut Tally) {
    let r = filled(t, after(start(&g0(), 0), &p()), 125);
    no_reply(t, r, &proposal(4, 200), 16);
    no_reply(t, r, &p(), 10);
    replied(t, r, &z1(), REPLY + 75, &z2());
    no_reply(t, after(r, &z1()), &z2(), 16);
}

// Openings. The graph file comes before an own number that the graph lacks: bytes short; G1, with the quorums 3, 13, 14 of learner 0; three
// learners with G1's quorums, where all safe lists are 15, but 0-2 is empty.
fn openings(t: &mut Tally) {
    t.tried(opening(&g0(), LISTENING) == 0);
    t.tried(opening(&[0, 15, 1], 9) == 1);
    let not_valid =
        b"\x00\x2e\x01\x04\x02\x03\x00\x03\x00\x0d\x00\x0e\x04\x00\x07\x00\x0b\x00\x0d\x00\x0e\x04\x00\x07\x00\x0b\x00\x0d\x00\x0e\x04\x00\x07\x00\x0b\x00\x0d\x00\x0e\x04\x00\x07\x00\x0b\x00\x0d\x00\x0e";
    t.tried(opening(not_valid, 9) == 6);
    let not_condensed =
        b"\x00\x2e\x01\x04\x03\x04\x00\x07\x00\x0b\x00\x0d\x00\x0e\x04\x00\x07\x00\x0b\x00\x0d\x00\x0e\x04\x00\x07\x00\x0b\x00\x0d\x00\x0e\x01\x00\x0f\x01\x00\x0f\x00\x01\x00\x0f\x01\x00\x0f\x01\x00\x0f";
    t.tried(opening(not_condensed, 9) == 7);
}

// Row 17: a learner and own acceptor numbers that the graph lacks. 256 alone stands for listening, and 65,536 is not 0.
fn learners(t: &mut Tally) {
    not_reported(t, start(&g0(), 0), 1, 17);
    t.tried(opening(&g0(), 1) == 17);
    t.tried(opening(&g0(), 257) == 17);
    t.tried(opening(&g0(), 65536) == 17);
    t.tried(opening(&g1(), 3) == 0);
    t.tried(opening(&g1(), 4) == 17);
}

// Row 17: a reply buffer of 4,138 bytes, also for bytes that are no message. 4,139 are enough, in every other sample.
fn buffers(t: &mut Tally) {
    let voting = start(&g0(), 0);
    let listening = start(&g0(), LISTENING);
    t.tried(cramped(voting, &p()) == 17);
    t.tried(cramped(voting, &[0, 15, 1]) == 17);
    t.tried(cramped(listening, &p()) == 17);
    no_reply(t, listening, &p(), 0);
}

// A round handed in that the calls must turn down.
fn unfit(t: &mut Tally, round: Round) {
    no_reply(t, round, &proposal(4, 70), 17);
    not_reported(t, round, 0, 17);
}

// Row 17: rounds handed in, with P at place 0 and z1 at place 1.
fn handed(t: &mut Tally) {
    let r = after(start(&g0(), 0), &p());
    no_reply(t, r, &proposal(4, 70), 0);
    // A count and a place outside the table.
    let mut held = r;
    held.bytes[HELD_AT] = 129;
    unfit(t, held);
    let mut last = r;
    last.bytes[LAST_AT] = 2;
    unfit(t, last);
    // A reference that is not to an earlier place, and an acceptor message with none.
    let mut forward = r;
    forward.bytes[REFERENCES_AT + 128] = 1;
    unfit(t, forward);
    let mut empty = r;
    empty.bytes[COUNTS_AT + 1] = 0;
    unfit(t, empty);
    // Own acceptor numbers that the graph lacks: 1, and 257, which does not listen.
    let mut own = r;
    own.bytes[OWN_AT + 1] = 1;
    unfit(t, own);
    let mut larger = r;
    larger.bytes[OWN_AT] = 1;
    larger.bytes[OWN_AT + 1] = 1;
    unfit(t, larger);
}
