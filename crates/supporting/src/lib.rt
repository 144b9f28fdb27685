#![tactic(auto)]

// The packets of a stream that a receiver does not support: definitions, and the theorems about them. No code.
