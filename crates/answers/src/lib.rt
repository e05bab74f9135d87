#![tactic(auto)]

// A theory: its definitions are in specs/ and its laws in proofs/. There is no code.
