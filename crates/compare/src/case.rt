// What a vector line asks.
use crate::words::Words;
use boxes::aabb::Aabb;
use math::pose::Pose;
use math::rotation::Rotation;
use math::{IVector, Vector};
use query::ray::Ray;
use setup::words_of;
use shapes::ball::Ball;
use shapes::bounding_sphere::BoundingSphere;
use shapes::cuboid::Cuboid;
use shapes::half_space::HalfSpace;
use shapes::shape::Shape;
use shapes::triangle::Triangle;

// A ray with its reach and the solid flag.
#[derive(Clone, Copy)]
pub struct Asked {
    pub ray: Ray,
    pub reach: f32,
    pub solid: bool,
}

// A chunk: where it stands, its cells' size, and their kinds by number.
#[derive(Clone, Copy)]
pub struct FilledChunk {
    pub key: IVector,
    pub size: Vector,
    pub id: i32,
    pub kinds: [u8; 512],
}

// A look from camera to target in a corner whose filled cells have the kind 1.
#[derive(Clone, Copy)]
pub struct Look {
    pub key: IVector,
    pub exponent: i32,
    pub kinds: [u8; 512],
    pub camera: IVector,
    pub target: IVector,
}

#[derive(Clone, Copy)]
pub enum Case {
    Cast {
        shape: Shape,
        asked: Asked,
    },
    Posed {
        shape: Shape,
        pose: Pose,
        asked: Asked,
    },
    LineClip {
        aabb: Aabb,
        ray: Ray,
    },
    RayClip {
        aabb: Aabb,
        ray: Ray,
    },
    InChunk {
        filled: FilledChunk,
        asked: Asked,
    },
    Look(Look),
}

fn read_box(words: &mut Words) -> Option<Aabb> {
    let mins = words.vector()?;
    let maxs = words.vector()?;
    Some(Aabb::new(mins, maxs))
}

fn read_shape(words: &mut Words) -> Option<Shape> {
    match words.next_word()? {
        b"box" => Some(Shape::Aabb(read_box(words)?)),
        b"cuboid" => Some(Shape::Cuboid(Cuboid {
            half_extents: words.vector()?,
        })),
        b"ball" => Some(Shape::Ball(Ball {
            radius: words.float()?,
        })),
        b"sphere" => {
            let center = words.vector()?;
            let radius = words.float()?;
            Some(Shape::BoundingSphere(BoundingSphere { center, radius }))
        }
        b"half" => Some(Shape::HalfSpace(HalfSpace {
            normal: words.vector()?,
        })),
        b"tri" => {
            let a = words.vector()?;
            let b = words.vector()?;
            let c = words.vector()?;
            Some(Shape::Triangle(Triangle { a, b, c }))
        }
        _ => None,
    }
}

fn read_ray(words: &mut Words) -> Option<Ray> {
    let origin = words.vector()?;
    let dir = words.vector()?;
    Some(Ray::new(origin, dir))
}

fn read_asked(words: &mut Words) -> Option<Asked> {
    let ray = read_ray(words)?;
    let reach = words.float()?;
    let solid = words.flag()?;
    Some(Asked { ray, reach, solid })
}

fn read_pose(words: &mut Words) -> Option<Pose> {
    let b = words.vector()?;
    let w = words.float()?;
    let translation = words.vector()?;
    Some(Pose {
        rotation: Rotation { b, w },
        translation,
    })
}

fn read_filled(words: &mut Words) -> Option<FilledChunk> {
    let key = words.triple()?;
    let size = words.vector()?;
    let id = words.integer()?;
    let kinds = words.kinds()?;
    Some(FilledChunk {
        key,
        size,
        id,
        kinds,
    })
}

fn read_look(words: &mut Words) -> Option<Look> {
    let key = words.triple()?;
    let exponent = words.integer()?;
    let kinds = words.kinds()?;
    let camera = words.triple()?;
    let target = words.triple()?;
    Some(Look {
        key,
        exponent,
        kinds,
        camera,
        target,
    })
}

fn read_form(words: &mut Words) -> Option<Case> {
    match words.next_word()? {
        b"S" => {
            let shape = read_shape(words)?;
            let asked = read_asked(words)?;
            Some(Case::Cast { shape, asked })
        }
        b"P" => {
            let shape = read_shape(words)?;
            let pose = read_pose(words)?;
            let asked = read_asked(words)?;
            Some(Case::Posed { shape, pose, asked })
        }
        b"K" => {
            let aabb = read_box(words)?;
            let ray = read_ray(words)?;
            Some(Case::LineClip { aabb, ray })
        }
        b"R" => {
            let aabb = read_box(words)?;
            let ray = read_ray(words)?;
            Some(Case::RayClip { aabb, ray })
        }
        b"C" => {
            let filled = read_filled(words)?;
            let asked = read_asked(words)?;
            Some(Case::InChunk { filled, asked })
        }
        b"L" => Some(Case::Look(read_look(words)?)),
        _ => None,
    }
}

// None where the line is malformed, a word too many among it.
pub fn read_case(line: &[u8]) -> Option<Case> {
    let mut words = Words {
        rest: words_of(line),
    };
    let case = read_form(&mut words)?;
    words.next_word().is_none().then_some(case)
}
