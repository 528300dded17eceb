// The report for a learner: what the held messages mean is worked out, and the known ones are asked.
ghost use Rattle.std.specs.Prelude.{◌≡◌, ◌<◌};
ghost use Rattle.protocol.specs.Report.{report};
ghost use Rattle.round.specs.Holdings.{graph_of, known_messages};
ghost use Rattle.round.specs.Report.{told};
ghost use Rattle.roundbytes.specs.Layout.{round_in};
ghost use Rattle.judging.specs.Inside.Standing.{Passes};

use deciding::report::report_for;
use derive::pass::work_out;
use graph::Graph;
use notes::Notes;
use round::Report;

// The report for a learner of the graph.
pub fn verdict_for(s: &[u8], graph: &Graph, learner: usize) -> Report
    requires { Passes s.now × ((graph.now ≡ (round_in s.now).graph) × (learner < (round_in s.now).graph.learners)) }
    ensures { result ≡ told (report (graph_of (round_in s.now)) (known_messages (round_in s.now)) learner) }
{
    let mut notes = Notes::new();
    work_out(s, graph, &mut notes);
    report_for(s, graph, &notes, learner)
}
