//! Worked examples of what instances do alone: proofs/ computes each from the definitions, and beside it what the gang does. The
//! sources stand above the typed trees; what they leave was worked out by hand, or found by an independent implementation.
#![tactic(auto)]
