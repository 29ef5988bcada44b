// When an image shows a state: what list surgery must leave. Definitions in specs/, laws in proofs/. No code.
#![tactic(auto)]
