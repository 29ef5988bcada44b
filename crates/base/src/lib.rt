#![tactic(auto)]

// The vocabulary that all crates share: definitions in specs/, their laws in proofs/. No code.
