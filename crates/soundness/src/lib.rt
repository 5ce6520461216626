// What an accepted bundle is, in plain facts, and what the checks and the export calls answer of it: no code.
#![tactic(auto)]
