// What `play` prints, tied to the rules of performance. Nothing here runs: specs/ says what is printed by the history of the calls alone, proofs/ that this is what
// `play` prints.
#![tactic(auto)]
