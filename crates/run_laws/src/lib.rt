// What the operations on free runs do to an image: definitions and laws only.
#![tactic(auto)]
