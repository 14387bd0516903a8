// A journal that is decoded in pieces and cut into fields. There is no program here: specs/ has the definitions, proofs/ the
// theorem. (Document 02, CR 1.)

#![tactic(auto)]
