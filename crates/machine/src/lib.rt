// The plain machine, the claim over every list of calls, and the known poses are in specs/ and proofs/; there is no code here.
#![tactic(auto)]
