// Demand 3: what holds of both streams after every list of inserts. Statements are in specs/, the theorem is in proofs/Theorem.
#![tactic(auto)]
