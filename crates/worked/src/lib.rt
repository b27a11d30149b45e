// Document 01, "Worked by hand", and figures and runs for document 02's A.1 to A.5, A.8 and A.9, computed from the definitions that the other crates' contracts cite.
// Nothing is computed when the program runs: each function's contract is a claim, so that the claim cannot go without its proof.
#![tactic(auto)]

ghost use Rattle.worked.specs.Cases.{Worked};
ghost use Rattle.worked.specs.Runs.{Played};

// The starred cases, one table; at its end the mean engine speeds of document 02's A.1, the coast-down times of its A.2 and the greatest product of its A.3.
// Ruled out: 101 units for CO bits 0x3F80A3D7, lock 5 at the third wrong try, a mean of 3999.5 shown as 3999, 107 percent of nominal failed, and
// a product cut to 24 bits.
#[tactic(auto, using(crate::proofs::Computed::worked))]
pub fn starred_cases()
    ensures { Worked }
{}

// Runs of events from a fresh bench with what the bench and the plain history answer to each.
// Ruled out: a bench on which no start is admitted, one that tells no verdict but a pass, and one that passes at t = 25 after a dip of 9 at second 6.
#[tactic(auto, using(crate::proofs::Replayed::played))]
pub fn played_runs()
    ensures { Played }
{}
