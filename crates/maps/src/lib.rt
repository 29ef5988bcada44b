// The chunk maps of a pool: which chunks of a page are taken. Definitions in specs/, laws in proofs/. No code.
#![tactic(auto)]
