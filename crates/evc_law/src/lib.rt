#![tactic(auto)]

ghost use Rattle.evc_law.specs.Demand3.{Demand3, Witness};
ghost use Rattle.evc_law.specs.Edges.{Edges};
ghost use Rattle.evc_law.specs.Invisible.{Invisible};
ghost use Rattle.evc_law.specs.Reports.{Reports};

// Statements and proofs alone: each theorem is the contract of a function that does nothing.

// Each predicted sample is the general filter's; the mirrors; the exchange of the lists.
pub fn demand3_holds()
    ensures { Demand3 }
{}

// Its premises can be met, by a call that is accepted.
pub fn premises_met()
    ensures { Witness }
{}

// The examples that the definitions are held to.
pub fn edges_hold()
    ensures { Edges }
{}

// When cutting and clipping are invisible.
pub fn invisible_holds()
    ensures { Invisible }
{}

// What a report says of a vector.
pub fn reports_hold()
    ensures { Reports }
{}
