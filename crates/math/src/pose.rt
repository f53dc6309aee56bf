// Poses: where a shape stands and how it is turned.
ghost use Rattle.std.specs.Prelude.{◌≡◌};
ghost use Rattle.math.specs.Poses.{local_point, world_point};

use crate::Vector;
use crate::rotation::Rotation;

#[derive(Clone, Copy)]
pub struct Pose {
    pub rotation: Rotation,
    pub translation: Vector,
}

impl Pose {
    // A point of the shape's own frame, in the world.
    pub fn transform_point(&self, p: Vector) -> Vector
        ensures { result ≡ world_point self.now p }
    {
        self.rotation.rotate(p).add(self.translation)
    }

    // A point of the world, in the shape's own frame.
    pub fn inverse_transform_point(&self, p: Vector) -> Vector
        ensures { result ≡ local_point self.now p }
    {
        self.rotation.inverse().rotate(p.sub(self.translation))
    }
}
