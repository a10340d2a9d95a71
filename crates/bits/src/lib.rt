// Vocabulary and laws that every layer above shares: the bits of a number, ASCII text, rules of all numbers below a
// bound that one computed test proves, and a `match` of constants. Nothing here runs; specs/ and proofs/ hold it.

#![tactic(auto)]
