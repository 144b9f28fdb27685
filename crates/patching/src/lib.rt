#![tactic(auto)]

// The patch book: definitions and laws stand in specs/.
