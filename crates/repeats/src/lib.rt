// Loops and curves tied to the rules of performance. Nothing here runs: specs/ reads an unfolded score as the rules' sequences, proofs/ says when each pass and each
// value comes.
#![tactic(auto)]
