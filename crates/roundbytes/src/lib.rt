// A round as bytes in a fixed layout, numbers big-endian: for hosts that keep a round in a buffer of their own.
#![tactic(auto)]

use base::{put_all, put8, put16, put32, read32};
use graph::{Graph, LISTS, MASK_SLOTS};
use message::layout::ID_LEN;
use round::{MAX_HELD, NO_PLACE};

pub mod readers;

ghost use Rattle.std.specs.Prelude.{◌≡◌, ◌+◌, ◌*◌, ◌≤◌, length};
ghost use Rattle.base.specs.Bytes.{put_at};
ghost use Rattle.message.specs.Writer.{fronted};
ghost use Rattle.round.specs.Limits.{no_place};
ghost use Rattle.round.specs.Opening.{empty_round};
ghost use Rattle.roundbytes.specs.Layout.{house_at, round_len, words, numbers, graph_bytes, number_bytes, round_bytes, round_in, masks_at};
ghost use Rattle.graph.specs.Limits.{max_masks, lists};

// Where each field stands, the same sums as in specs/Layout. The two bytes in front are the graph's acceptors and learners.
pub const ACCEPTORS_AT: usize = 0;

pub const LEARNERS_AT: usize = 1;

pub const LIST_COUNTS_AT: usize = 2;

pub const MASKS_AT: usize = LIST_COUNTS_AT + LISTS;

pub const HOUSE_AT: usize = MASKS_AT + 4 * MASK_SLOTS;

pub const BAY_AT: usize = HOUSE_AT + 2;

pub const OWN_AT: usize = BAY_AT + 2;

pub const HELD_AT: usize = OWN_AT + 2;

pub const LAST_AT: usize = HELD_AT + 1;

pub const IDS_AT: usize = LAST_AT + 1;

pub const KINDS_AT: usize = IDS_AT + ID_LEN * MAX_HELD;

pub const SIGNERS_AT: usize = KINDS_AT + MAX_HELD;

pub const BALLOTS_AT: usize = SIGNERS_AT + MAX_HELD;

pub const PREVIOUS_AT: usize = BALLOTS_AT + 8 * MAX_HELD;

pub const COUNTS_AT: usize = PREVIOUS_AT + MAX_HELD;

pub const REFERENCES_AT: usize = COUNTS_AT + MAX_HELD;

pub const KNOWN_AT: usize = REFERENCES_AT + MAX_HELD * MAX_HELD;

pub const RECENT_AT: usize = KNOWN_AT + MAX_HELD;

// How many bytes a round takes.
pub const ROUND_LEN: usize = RECENT_AT + MAX_HELD;

// ---- the graph read
pub fn masks_in(s: &[u8]) -> [u32; MASK_SLOTS]
    requires { house_at ≤ length s.now }
    ensures { result ≡ numbers 4 (max_masks * lists) s.now masks_at }
{
    let mut out = [0u32; MASK_SLOTS];
    for (i, mask) in out.iter_mut().enumerate() {
        *mask = read32(s, MASKS_AT + 4 * i);
    }
    out
}

pub fn graph_in(s: &[u8]) -> Graph
    requires { round_len ≤ length s.now }
    ensures { result ≡ (round_in s.now).graph }
{
    let mut counts = [0u8; LISTS];
    counts.copy_from_slice(&s[LIST_COUNTS_AT..MASKS_AT]);
    Graph {
        acceptors: s[ACCEPTORS_AT],
        learners: s[LEARNERS_AT],
        counts,
        masks: masks_in(s),
    }
}

// ---- the graph put in, and the numbers behind it
fn put_masks(buf: &mut [u8], masks: &[u32])
    requires { masks_at + 4 * length masks.now ≤ length buf.old }
    ensures { buf.new ≡ put_at buf.old masks_at (words 4 masks.now) }
{
    for (i, mask) in masks.iter().enumerate() {
        put32(buf, MASKS_AT + 4 * i, *mask);
    }
}

fn put_graph(graph: Graph, buf: &mut [u8])
    requires { round_len ≤ length buf.old }
    ensures { buf.new ≡ put_at buf.old 0 (graph_bytes graph) }
{
    put8(buf, ACCEPTORS_AT, graph.acceptors);
    put8(buf, LEARNERS_AT, graph.learners);
    put_all(buf, LIST_COUNTS_AT, &graph.counts);
    put_masks(buf, &graph.masks);
}

fn put_numbers(buf: &mut [u8], house: u16, bay: u16, own: u16, held: u8, last: u8)
    requires { round_len ≤ length buf.old }
    ensures { buf.new ≡ put_at buf.old house_at (number_bytes house bay own held last) }
{
    put16(buf, HOUSE_AT, usize::from(house));
    put16(buf, BAY_AT, usize::from(bay));
    put16(buf, OWN_AT, usize::from(own));
    put8(buf, HELD_AT, held);
    put8(buf, LAST_AT, last);
}

// ---- the round
// Puts a round that holds no message to the front of a buffer. No message was sent from it, so there is no place of a last one.
pub fn put_empty(graph: Graph, house: u16, bay: u16, own: u16, s: &mut [u8])
    requires { round_len ≤ length s.old }
    ensures { s.new ≡ fronted (round_bytes (empty_round graph house bay own no_place)) s.old }
{
    put_graph(graph, s);
    put_numbers(s, house, bay, own, 0, NO_PLACE);
    s[IDS_AT..ROUND_LEN].fill(0);
}
