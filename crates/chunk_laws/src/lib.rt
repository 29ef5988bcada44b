// What the operations on chunks do to a drawing: laws only.
#![tactic(auto)]
