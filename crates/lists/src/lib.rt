// Lists that loops fill, runs of places, and what a test chooses, as mathematics: the laws that
// serve every loop of the project, at any element. No code: the definitions are in specs/, the laws
// in proofs/.
#![tactic(auto)]
