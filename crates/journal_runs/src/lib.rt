// Demand 3 (manual 12) over the program: any run of calls of the twelve functions, in place or by value, each as its own contract promises. Nothing
// here runs.

#![tactic(auto)]
