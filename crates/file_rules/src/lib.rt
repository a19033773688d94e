// A manufacturer's price file: which lines are price rows and which rows are lines, as definitions in specs/, and the promises about the
// two calls on it in proofs/Promises.antt. Nothing here computes; the answer is `rules::PlacedAnswer`.
#![tactic(auto)]
