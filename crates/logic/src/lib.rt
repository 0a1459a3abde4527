// Logic that every crate uses: tests, their conjunctions, and a test of every element of a list.
#![tactic(auto)]
