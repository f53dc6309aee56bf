// Sight lines between grid points of a scanned corner.
#![tactic(auto)]

pub mod edit;
pub mod grid_point;
pub mod look;
pub mod scan;
