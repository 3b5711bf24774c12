// The customer's three demands, of plan and report, and of read and write that a sheet has one
// meaning. No code; the statements are in specs/, their proofs in proofs/.
#![tactic(auto)]
