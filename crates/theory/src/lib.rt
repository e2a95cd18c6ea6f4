// No code: theory/specs and theory/proofs are the mathematics of the planner, over the definitions of terms.
#![tactic(auto)]
