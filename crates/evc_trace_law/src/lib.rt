#![tactic(auto)]

ghost use Rattle.evc_trace_law.specs.Counts.{Counts};
ghost use Rattle.evc_trace_law.specs.Replays.{Replays};
ghost use Rattle.evc_trace_law.specs.RoundTrip.{RoundTrip};

// Statements and proofs alone: each theorem is the contract of a function that does nothing.

// Writing and reading return the same records.
pub fn round_trip_holds()
    ensures { RoundTrip }
{}

// Replay equals the records applied one after another, and the target keeps the blocks before it.
pub fn replays_hold()
    ensures { Replays }
{}

// Its four counts are those of the records' reports.
pub fn counts_hold()
    ensures { Counts }
{}
