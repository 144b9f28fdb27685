#![tactic(auto)]

// The levels of a dimmer rack's universe: definitions and laws stand in specs/.
