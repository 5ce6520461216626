// A worked bundle, byte by byte, accepted by computation, and changes of its bytes that are refused: no code.
#![tactic(auto)]
