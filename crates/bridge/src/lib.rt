// The functions of include/citp.h that read: bodies, lists, strings, and the walk. All functions for C and Rust are over numbers, slices of numbers and flat structs.
#![tactic(auto)]

pub mod list;
pub mod read;
pub mod walk;
