// The line, its policies and its plan, as mathematics. No code: the definitions are in specs/, the
// theorems in proofs/.
#![tactic(auto)]
