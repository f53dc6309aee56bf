// Rotations.
ghost use Rattle.std.specs.Prelude.{◌≡◌};
ghost use Rattle.math.specs.Poses.{rotated, inverse_rotation};

use crate::Vector;

// A vector part b and a number w. It turns vectors only where its length, by all four numbers, is one: whoever makes one sees to that.
#[derive(Clone, Copy)]
pub struct Rotation {
    pub b: Vector,
    pub w: f32,
}

impl Rotation {
    pub fn rotate(&self, v: Vector) -> Vector
        ensures { result ≡ rotated self.now v }
    {
        let b = self.b;
        let w = self.w;
        let straight = v.scale(w * w - b.dot(b)).add(b.scale(v.dot(b) * 2.0));
        straight.add(b.cross(v).scale(w * 2.0))
    }

    pub fn inverse(&self) -> Rotation
        ensures { result ≡ inverse_rotation self.now }
    {
        Rotation {
            b: self.b.neg(),
            ..*self
        }
    }
}
