// Rays and the casting interface.
#![tactic(auto)]

pub mod feature_id;
pub mod first_hit;
pub mod ray;
pub mod ray_cast;
