// The words that definitions are written with: tests and choices, decisions over ranges, the first fault of several, and what passes a test. Nothing here runs.
#![tactic(auto)]
