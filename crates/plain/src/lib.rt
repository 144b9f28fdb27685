// What the walk answers, the packet writer's state, what a body's writer answers and the numbers of a fixture as plain fields,
// for callers that have no enums.
#![tactic(auto)]

pub mod numbers;
pub mod reason;
pub mod report;
pub mod state;
pub mod written;
