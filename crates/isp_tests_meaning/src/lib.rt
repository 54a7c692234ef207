//! Worked examples of what programs mean: proofs/ computes each from the definitions, and it is what an independent
//! implementation found. The typed trees are those of the sources above them.
#![tactic(auto)]
