// The pool apart from its bytes: definitions in specs/, theorems in proofs/. There is no code.
#![tactic(auto)]
