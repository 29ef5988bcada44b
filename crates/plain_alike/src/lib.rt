// The plain engine and the packed pool answer alike: statement and proof.
#![tactic(auto)]
