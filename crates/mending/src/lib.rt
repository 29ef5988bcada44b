// Definitions and laws of mended pools; `check_mended` and `mend` are the code.
#![tactic(auto)]
