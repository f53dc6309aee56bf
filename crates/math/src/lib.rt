// Vectors, with a named function for each operation, rotations and poses.
#![tactic(auto)]

pub mod pose;
pub mod rotation;

ghost use Rattle.std.specs.Prelude.{◌≡◌};
ghost use Rattle.math.specs.Vectors.{vector, zero_vector, component, along, vadd, vsub, vscale, vneg, dot, cross, normalized, min_position, between, all_between, to_i32, floor};

#[derive(Clone, Copy, PartialEq, Eq, Debug)]
pub enum Axis {
    X,
    Y,
    Z,
}

// Three floats: a point or a direction.
#[derive(Clone, Copy, PartialEq, Debug)]
pub struct Vector {
    pub x: f32,
    pub y: f32,
    pub z: f32,
}

// Three whole numbers: a key or a coordinate triple.
#[derive(Clone, Copy, PartialEq, Eq, Debug)]
pub struct IVector {
    pub x: i32,
    pub y: i32,
    pub z: i32,
}

impl Vector {
    pub fn new(x: f32, y: f32, z: f32) -> Vector
        ensures { result ≡ vector x y z }
    {
        Vector { x, y, z }
    }

    pub fn zero() -> Vector
        ensures { result ≡ zero_vector }
    {
        Vector::new(0.0, 0.0, 0.0)
    }

    // The vector along an axis, of the given length.
    pub fn on_axis(axis: Axis, length: f32) -> Vector
        ensures { result ≡ along axis length }
    {
        match axis {
            Axis::X => Vector::new(length, 0.0, 0.0),
            Axis::Y => Vector::new(0.0, length, 0.0),
            Axis::Z => Vector::new(0.0, 0.0, length),
        }
    }

    pub fn vget(self, axis: Axis) -> f32
        ensures { result ≡ component self axis }
    {
        match axis {
            Axis::X => self.x,
            Axis::Y => self.y,
            Axis::Z => self.z,
        }
    }

    pub fn add(self, other: Vector) -> Vector
        ensures { result ≡ vadd self other }
    {
        Vector {
            x: self.x + other.x,
            y: self.y + other.y,
            z: self.z + other.z,
        }
    }

    pub fn sub(self, other: Vector) -> Vector
        ensures { result ≡ vsub self other }
    {
        Vector {
            x: self.x - other.x,
            y: self.y - other.y,
            z: self.z - other.z,
        }
    }

    pub fn scale(self, factor: f32) -> Vector
        ensures { result ≡ vscale self factor }
    {
        Vector {
            x: self.x * factor,
            y: self.y * factor,
            z: self.z * factor,
        }
    }

    pub fn neg(self) -> Vector
        ensures { result ≡ vneg self }
    {
        Vector {
            x: -self.x,
            y: -self.y,
            z: -self.z,
        }
    }

    // The dot product, summed from x to z.
    pub fn dot(self, other: Vector) -> f32
        ensures { result ≡ dot self other }
    {
        self.x * other.x + self.y * other.y + self.z * other.z
    }

    pub fn cross(self, other: Vector) -> Vector
        ensures { result ≡ cross self other }
    {
        Vector {
            x: self.y * other.z - other.y * self.z,
            y: self.z * other.x - other.z * self.x,
            z: self.x * other.y - other.x * self.y,
        }
    }

    // The vector times one over its length; a zero vector gives NaNs.
    pub fn normalize(self) -> Vector
        ensures { result ≡ normalized self }
    {
        self.scale(1.0 / scalar::sqrt(self.dot(self)))
    }

    // The axis of the least component, the first of equal ones. A NaN is never less.
    #[tactic(auto, unfolding(crate::specs::Vectors::min_position))]
    pub fn min_position(self) -> Axis
        ensures { result ≡ min_position self }
    {
        if self.y < self.x {
            if self.z < self.y { Axis::Z } else { Axis::Y }
        } else if self.z < self.x {
            Axis::Z
        } else {
            Axis::X
        }
    }
}

fn is_between<const LEAST: i32, const MOST: i32>(i: i32) -> bool
    ensures { result ≡ between LEAST MOST i }
{
    (LEAST..=MOST).contains(&i)
}

impl IVector {
    // Whether all three are from LEAST to MOST.
    pub fn all_between<const LEAST: i32, const MOST: i32>(self) -> bool
        ensures { result ≡ all_between LEAST MOST self }
    {
        is_between::<LEAST, MOST>(self.x)
            && is_between::<LEAST, MOST>(self.y)
            && is_between::<LEAST, MOST>(self.z)
    }
}

// The greatest whole number that is not above x, as a float.
pub fn floor(x: f32) -> f32
    ensures { result ≡ floor x }
{
    x.floor()
}

// A whole number of i32: cut toward zero, at the nearest end of the range where x is outside, 0 for a NaN.
pub fn to_i32(x: f32) -> i32
    ensures { result ≡ to_i32 x }
{
    std::num::saturating_f32_to_i32(x)
}
