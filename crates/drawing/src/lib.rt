// States drawn into bytes and read back: definitions in specs/, the laws between bytes, fields and states in proofs/. No code.
#![tactic(auto)]
