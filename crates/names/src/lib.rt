#![tactic(auto)]

// The names of kinds and fields in a listing: definitions stand in specs/, laws in proofs/.
