// What a dip tells: the mean level of two or four readings, when they are refused, and the tape allowance. It has
// definitions and proofs, and no code. Readings are in mm, a mean level is in tenths of a mm.
#![tactic(auto)]
