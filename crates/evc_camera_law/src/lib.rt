#![tactic(auto)]

ghost use Rattle.evc_camera_law.specs.CameraLaws.{CameraLaws};

// Statements and proofs alone: the theorem is the contract of a function that does nothing.

// Camera movement: two examples, what a reading depends on, and the flipped reel.
pub fn camera_laws_hold()
    ensures { CameraLaws }
{}
