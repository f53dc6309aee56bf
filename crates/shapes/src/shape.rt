// Any of the shapes. They are these six and no others, so this is an enum.
ghost use Rattle.std.specs.Prelude.{◌≡◌};
ghost use Rattle.shapes.specs.Shape.{shape_cast};
ghost use Rattle.boxes.specs.BoxLemmas.{box_timed, box_kept};
ghost use Rattle.shapes.specs.declared.shape.Shape.TheVariants.{Ball, Cuboid, BoundingSphere, HalfSpace, Triangle, Aabb};
ghost use Rattle.shapes.specs.BallLaws.{ball_timed, bounding_sphere_timed, ball_kept, bounding_sphere_kept};
ghost use Rattle.shapes.specs.CuboidLaws.{cuboid_timed, cuboid_kept};
ghost use Rattle.shapes.specs.HalfSpaceLaws.{half_space_timed, half_space_kept};
ghost use Rattle.shapes.specs.TriangleLaws.{triangle_timed, triangle_kept};

use crate::ball::Ball;
use crate::bounding_sphere::BoundingSphere;
use crate::cuboid::Cuboid;
use crate::half_space::HalfSpace;
use crate::triangle::Triangle;
use boxes::aabb::Aabb;
use query::ray::{Ray, RayCast, RayIntersection};

#[derive(Clone, Copy, PartialEq, Debug)]
pub enum Shape {
    Ball(Ball),
    Cuboid(Cuboid),
    BoundingSphere(BoundingSphere),
    HalfSpace(HalfSpace),
    Triangle(Triangle),
    Aabb(Aabb),
}

impl RayCast for Shape {
    ghost casts = { shape_cast };

    ghost timed = { elim [
      | Ball x ↦ ball_timed x
      | Cuboid x ↦ cuboid_timed x
      | BoundingSphere x ↦ bounding_sphere_timed x
      | HalfSpace x ↦ half_space_timed x
      | Triangle x ↦ triangle_timed x
      | Aabb x ↦ box_timed x
    ] };

    ghost kept = { elim [
      | Ball x ↦ λ r reach longer solid n. ball_kept x r reach longer solid
      | Cuboid x ↦ λ r reach longer solid n. cuboid_kept x r reach longer solid
      | BoundingSphere x ↦ λ r reach longer solid n. bounding_sphere_kept x r reach longer solid
      | HalfSpace x ↦ λ r reach longer solid n. half_space_kept x r reach longer solid
      | Triangle x ↦ λ r reach longer solid n. triangle_kept x r reach longer solid
      | Aabb x ↦ λ r reach longer solid n. box_kept x r reach longer solid
    ] };

    fn cast_local_ray_and_get_normal(
        &self,
        ray: &Ray,
        max_time_of_impact: f32,
        solid: bool,
    ) -> Option<RayIntersection> {
        match *self {
            Shape::Ball(x) => x.cast_local_ray_and_get_normal(ray, max_time_of_impact, solid),
            Shape::Cuboid(x) => x.cast_local_ray_and_get_normal(ray, max_time_of_impact, solid),
            Shape::BoundingSphere(x) => {
                x.cast_local_ray_and_get_normal(ray, max_time_of_impact, solid)
            }
            Shape::HalfSpace(x) => x.cast_local_ray_and_get_normal(ray, max_time_of_impact, solid),
            Shape::Triangle(x) => x.cast_local_ray_and_get_normal(ray, max_time_of_impact, solid),
            Shape::Aabb(x) => x.cast_local_ray_and_get_normal(ray, max_time_of_impact, solid),
        }
    }
}
