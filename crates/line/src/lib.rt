// One line alone, read or written, and that the two undo each other. It has definitions and proofs, and no code.
#![tactic(auto)]
