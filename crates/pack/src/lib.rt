// Packs of start-up profiles (manual 11.6): what a pack of a list of profiles is, what is read in one, and what is found by a name. Nothing here runs;
// specs/ has the definitions and the theorems' statements, proofs/ the proofs. `pack_write`, `pack_read` and `pack_find` are the functions.

#![tactic(auto)]
