// What holds of a sheet made of two: the proofs of merge_spec's promises, and two sheets with the one made of them, byte by byte. It has no code.
#![tactic(auto)]
