// What the calls guarantee, as statements over their contracts' definitions: no code.
#![tactic(auto)]
