// The records of a pool as functions of class and page: definitions in specs/, laws in proofs/. No code.
#![tactic(auto)]
