// How long a line takes at most: laws on the definitions of a draw, in specs/ and proofs/.
#![tactic(auto)]
