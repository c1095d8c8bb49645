#![tactic(auto)]

ghost use Rattle.evc_avail_law.specs.SliceLaws.{SliceLaws};

// Statements and proofs alone: the theorem is the contract of a function that does nothing.

// What the flags of a block of a slice depend on, and what candidates come of them.
pub fn slice_laws_hold()
    ensures { SliceLaws }
{}
