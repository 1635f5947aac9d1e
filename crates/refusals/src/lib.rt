// The table of refusals over every outward call: definitions in specs/, laws in proofs/; no code.
#![tactic(auto)]
