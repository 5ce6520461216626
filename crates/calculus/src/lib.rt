// The triage calculus and its reference machine: definitions and laws, no code.
#![tactic(auto)]
