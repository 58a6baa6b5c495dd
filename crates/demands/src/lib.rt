// The three demands as theorems over whole runs of calls. Nothing here runs: specs/ says what a run of calls is and what it sends, proofs/ that the sequencer's calls
// are such a run.
#![tactic(auto)]
