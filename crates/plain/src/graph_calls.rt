// The learner graph.
ghost use Rattle.std.specs.Prelude.{◌≡◌};
ghost use Rattle.plain.specs.Graph.{check_graph};

use super::answer;

// Any bytes: 0 where they are an accepted graph file, or the number of the refusal, 1 to 7.
pub fn check_graph(file: &[u8]) -> u32
    ensures { result ≡ check_graph file.now }
{
    answer(graphfile::check(file))
}
