// Theorems of listings. There is no program here: specs/ has the definitions, proofs/ the theorems. (Document 02, CR 3.)

#![tactic(auto)]
