// Laws of relative error: how near a 64-bit float stays to a fraction of two whole numbers through products, quotients and sums (document 02,
// A.11). It has no function: specs/Ratio.antt is what a claim about a float says, all else carries it through the operations.

#![tactic(auto)]
