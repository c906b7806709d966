// What holds after any sequence of calls. There is no code here: specs/ has the histories, proofs/ the theorems.
