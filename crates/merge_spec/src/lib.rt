// What a sheet made of two is: its tables and cars, refusals 33 to 35, its text, and what is handed back. It has definitions and
// proofs, and no code.
#![tactic(auto)]
