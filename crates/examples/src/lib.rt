// 01's examples that are to be proved: one table in specs/Examples.antt, one statement over it, proved in proofs/Examples.antt.
#![tactic(auto)]
