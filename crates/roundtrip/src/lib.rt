// A theory: its laws are in proofs/. There is no code.

#![tactic(auto)]
