// Demand 3: lists of events, and the theorem over the whole list; and what a round comes to where one store has all keys of the other (document 02, slip 5).
// Definitions in specs/ and laws in proofs/, and no code.
#![tactic(auto)]
