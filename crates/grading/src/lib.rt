// What the grades allow (002, table 5): refusals 13 and 18 to 21 of document 01, and the share of oil. It has definitions and proofs,
// and no code.
#![tactic(auto)]
