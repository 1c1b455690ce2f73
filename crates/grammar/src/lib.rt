// What a sheet is: its text by tables and cars, how it is read line by line, and that the two agree. It has definitions and proofs, and no code.
#![tactic(auto)]
