// A list of frees, done or refused, moves no peak. There is no code.
#![tactic(auto)]
