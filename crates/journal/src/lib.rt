// The journal of demand 3 (manual 12) and its theorem, over the machine's definition. Nothing here runs.

#![tactic(auto)]
