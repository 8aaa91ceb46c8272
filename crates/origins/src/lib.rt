// Where each character of an edited text came from: definitions in specs/, the proof in proofs/. No code.
#![tactic(auto)]
