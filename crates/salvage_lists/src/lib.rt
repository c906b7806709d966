// Salvage of set files. There is no code here: specs/ says what is left of the entries of a file, proofs/ has the laws.
