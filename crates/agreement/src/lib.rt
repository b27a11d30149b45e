// The claim that rejudging gives a record what a bench gives it (specs/Agreement.antt), and a function that carries it.
#![tactic(auto)]

ghost use Rattle.agreement.specs.Agreement.{Agreement};

// Does nothing: its contract is the claim, so that the claim's proof is this function's. Ruled out: a record rejudged as a pass that a bench
// given its rows and stops does not pass; a sheet whose counts are not the verdict's.
pub fn agreed()
    ensures { Agreement }
{}
