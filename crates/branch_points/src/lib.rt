// Members and branch points of lists. There is no code here: specs/ says what they are, proofs/ has the laws.
