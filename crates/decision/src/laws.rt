// The laws of what is enough: the function's contract is the theorem, and the function does nothing.
ghost use Rattle.decision.specs.Laws.{EnoughLaws};

/// Enough proposals have a proposer among them, stay enough when more come, and are reached when all beds have proposed.
pub fn enough_laws_hold()
    ensures { EnoughLaws }
{}
