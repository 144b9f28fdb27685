// The functions of include/citp.h that write: bodies alone, their sizes, and packets.
#![tactic(auto)]

pub mod body;
pub mod packet;
pub mod size;
