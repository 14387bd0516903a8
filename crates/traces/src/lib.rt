// Lists of calls on one text, and the one claim over every list. There is no program here: specs/ has the definitions, proofs/
// the theorem. (Document 01, "The lists of demand 3".)

#![tactic(auto)]
