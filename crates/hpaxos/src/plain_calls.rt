// Digests, graph files and messages, as the crate plain answers them.
ghost use Rattle.std.specs.Prelude.{◌≡◌};
ghost use Rattle.message.specs.Writer.{meant_round, proposal_bytes, proposal_of, reference_answer, reference_to, written_to, wrote};
ghost use Rattle.plain.specs.Digest.{digest_answer, digest_buffer};
ghost use Rattle.plain.specs.Graph.{check_graph};
ghost use Rattle.plain.specs.Answers.{answer_of};
ghost use Rattle.plain.specs.Message.{fields_to, read_answer};

// 0: the first 32 bytes of digest are the digest of message, and those behind keep their values. 17: digest is too short, and is not written.
#[unsafe(no_mangle)]
pub extern "C" fn hpaxos_sha256(message: &[u8], digest: &mut [u8]) -> u32
    ensures { (result ≡ digest_answer digest.old) × (digest.new ≡ digest_buffer message.now digest.old) }
{
    plain::digest_calls::sha256_to(message, digest)
}

// Any bytes: 0 where they are an accepted graph file, or the number of the refusal, 1 to 7.
#[unsafe(no_mangle)]
pub extern "C" fn hpaxos_check_graph(file: &[u8]) -> u32
    ensures { result ≡ check_graph file.now }
{
    plain::graph_calls::check_graph(file)
}

// Reads a message, and writes its fields to the front of a lent buffer.
#[unsafe(no_mangle)]
pub extern "C" fn hpaxos_read_message(bytes: &[u8], fields: &mut [u8]) -> u32
    ensures { (result ≡ read_answer bytes.now fields.old) × (fields.new ≡ fields_to bytes.now fields.old) }
{
    plain::message_calls::read_message(bytes, fields)
}

// The n-th reference of a message, from 0 on.
#[unsafe(no_mangle)]
pub extern "C" fn hpaxos_reference(bytes: &[u8], n: usize, id: &mut [u8]) -> u32
    ensures { (result ≡ answer_of (reference_answer bytes.now n id.old)) × (id.new ≡ reference_to bytes.now n id.old) }
{
    plain::message_calls::reference(bytes, n, id)
}

// Writes a proposal to the front of a lent buffer.
#[unsafe(no_mangle)]
pub extern "C" fn hpaxos_write_proposal(
    house: u16,
    bay: u16,
    proposer: u8,
    round: u32,
    value: u32,
    message: &mut [u8],
) -> u32
    ensures { (result ≡ answer_of (wrote (proposal_bytes (proposal_of house bay proposer (meant_round round) value)) message.old)) × (message.new ≡ written_to (proposal_bytes (proposal_of house bay proposer (meant_round round) value)) message.old) }
{
    plain::message_calls::write_proposal(house, bay, proposer, round, value, message)
}
