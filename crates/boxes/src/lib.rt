// Boxes along the axes: what a box leaves of a line, and its cast.
#![tactic(auto)]

pub mod aabb;
pub mod clip_aabb_line;
pub mod ray_aabb;
