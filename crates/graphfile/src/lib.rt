// The graph file of a site, read, checked and written: rows 1 to 5 on the way through its bytes, and rows 6 and 7 of the graph that it gives.
#![tactic(auto)]

use base::read16;
use base::refusal::Refusal;
use file::{read_count, read_lists};
use graph::{Graph, LISTS, MASK_SLOTS, MAX_ACCEPTORS, MAX_LEARNERS, MAX_MASKS};
use writer::{put_file, sayable};

mod file;
mod writer;

ghost use Rattle.std.specs.Prelude.{◌≡◌, ◌≤◌};
ghost use Rattle.graph.specs.Limits.{max_learners};
ghost use Rattle.graphfile.specs.File.{lists_at, contents, answer_of, read_graph};
ghost use Rattle.graphfile.specs.Arrays.{held_reading, reading_of};
ghost use Rattle.graphfile.specs.Inside.Steps.{HeadOf, ReadFrom};
ghost use Rattle.graphfile.specs.Writer.{write_answer, write_to};

pub const VERSION: u8 = 1;

pub const MASK_BYTES: usize = 2;

// The bytes of a file: how many follow, the version, how many acceptors and learners there are, and the lists.
const OUTER_LEN: usize = 2;

const VERSION_AT: usize = OUTER_LEN;

const ACCEPTORS_AT: usize = VERSION_AT + 1;

const LEARNERS_AT: usize = ACCEPTORS_AT + 1;

const LISTS_AT: usize = LEARNERS_AT + 1;

// The longest file: every list has all its masks.
pub const MAX_LEN: usize = LISTS_AT + (1 + MASK_BYTES * MAX_MASKS) * LISTS;

// What stands before the lists: the outer length, the version, and how many acceptors and learners there are.
fn head(file: &[u8]) -> Result<(), Refusal>
    ensures { HeadOf file.now result }
{
    if file.len() < OUTER_LEN || file.len() != OUTER_LEN + read16(file, 0) {
        return Err(Refusal::Length);
    }
    if file.len() <= VERSION_AT {
        return Err(Refusal::Length);
    }
    if file[VERSION_AT] != VERSION {
        return Err(Refusal::Version);
    }
    read_count(file, ACCEPTORS_AT, 1, MAX_ACCEPTORS)?;
    read_count(file, LEARNERS_AT, 1, MAX_LEARNERS)?;
    Ok(())
}

// The lists, put into memory.
fn held(file: &[u8], acceptors: u8, learners: u8) -> Result<Graph, Refusal>
    requires { ReadFrom file.now lists_at acceptors × (learners ≤ max_learners) }
    ensures { result ≡ held_reading (read_graph file.now acceptors learners lists_at) }
{
    let mut graph = Graph {
        acceptors,
        learners,
        counts: [0; LISTS],
        masks: [0; MASK_SLOTS],
    };
    read_lists(file, &mut graph)?;
    Ok(graph)
}

// Any bytes, by rows 1 to 5 alone: the graph, which may be neither valid nor condensed, or why they are turned down.
pub fn read_contents(file: &[u8]) -> Result<Graph, Refusal>
    ensures { result ≡ held_reading (contents file.now) }
{
    head(file)?;
    held(file, file[ACCEPTORS_AT], file[LEARNERS_AT])
}

// Any bytes: the graph, which passed rows 6 and 7 too, or why they are turned down.
pub fn read(file: &[u8]) -> Result<Graph, Refusal>
    ensures { result ≡ reading_of file.now }
{
    let graph = read_contents(file)?;
    graph.judge()?;
    Ok(graph)
}

// Any bytes: accepted, or why they are turned down.
pub fn check(file: &[u8]) -> Result<(), Refusal>
    ensures { result ≡ answer_of file.now }
{
    read(file)?;
    Ok(())
}

// Writes the file of a graph to the front of a lent buffer. 17: a graph that no file can say, or a buffer too short; no byte is written then.
pub fn write(graph: &Graph, buf: &mut [u8]) -> Result<usize, Refusal>
    ensures { (result ≡ write_answer graph.now buf.old) × (buf.new ≡ write_to graph.now buf.old) }
{
    if !sayable(graph) {
        return Err(Refusal::Argument);
    }
    let mut file = [0u8; MAX_LEN];
    let len = put_file(graph, &mut file);
    if buf.len() < len {
        return Err(Refusal::Argument);
    }
    buf[..len].copy_from_slice(&file[..len]);
    Ok(len)
}
