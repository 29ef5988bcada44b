// Rules 2 to 6 on a plain state: definitions and laws.
#![tactic(auto)]
