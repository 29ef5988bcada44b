// The ten doubly linked lists: list 0 is the list of free runs, list 1 + c the list of class c's pages with a free chunk.
// Definitions in specs/, laws in proofs/. No code.
#![tactic(auto)]
