// Kinds of shapes that a ray can hit.
#![tactic(auto)]

pub mod ball;
pub mod bounding_sphere;
pub mod cuboid;
pub mod half_space;
pub mod shape;
#[cfg(test)]
mod tests;
pub mod triangle;
