// What every promise is made of: definitions in specs/, laws in proofs/. No code.
#![tactic(auto)]
