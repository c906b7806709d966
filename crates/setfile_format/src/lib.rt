// Set files. There is no code here: specs/ says what a file is, proofs/ has the laws.
