// Tries in the second form, of members and branch points only. There is no code here: specs/ says which words a trie has and which trie words hold, proofs/ has the laws.
