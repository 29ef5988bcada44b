// What the calls answer and leave on bytes, and the three demands. Definitions in specs/, theorems in proofs/. No code.
#![tactic(auto)]
