// When records are sound (SPEC 3): rules 1 to 6 as tests, and the state that sound records show. Definitions in specs/, laws in proofs/. No code.
#![tactic(auto)]
