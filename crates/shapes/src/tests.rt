// The worked rays through the code, and a ball whose arithmetic underflows.
use crate::ball::{Ball, ray_toi_with_ball};
use crate::bounding_sphere::BoundingSphere;
use crate::cuboid::Cuboid;
use crate::half_space::HalfSpace;
use crate::shape::Shape;
use crate::triangle::Triangle;
use boxes::aabb::Aabb;
use math::Vector;
use query::feature_id::FeatureId;
use query::ray::{Ray, RayCast, RayIntersection};
use std::process::Abort;
use std::test::Fail;

fn along_x(x: f32, y: f32) -> Ray {
    Ray::new(Vector::new(x, y, 0.0), Vector::new(1.0, 0.0, 0.0))
}

// The face of the shape is two units ahead of the ray, along x.
fn check_two_ahead(rt: &impl Abort, shape: &Shape, ray: &Ray) -> Result<(), Fail> {
    let hit = shape.cast_local_ray_and_get_normal(ray, 10.0, true);
    let normal = Vector::new(-1.0, 0.0, 0.0);
    assert_eq!(rt;
        hit,
        Some(RayIntersection::new(2.0, normal, FeatureId::Face(0)))
    );
    Ok(())
}

#[test]
fn closed_shapes_from_outside(rt: HostRuntime) -> Result<(), Fail> {
    let ray = along_x(-3.0, 0.0);
    check_two_ahead(&rt, &Shape::Ball(Ball { radius: 1.0 }), &ray)?;
    let one = Vector::new(1.0, 1.0, 1.0);
    check_two_ahead(&rt, &Shape::Cuboid(Cuboid { half_extents: one }), &ray)?;
    check_two_ahead(&rt, &Shape::Aabb(Aabb::new(one.neg(), one)), &ray)?;
    let sphere = BoundingSphere {
        center: Vector::new(4.0, 2.0, 0.0),
        radius: 1.0,
    };
    check_two_ahead(&rt, &Shape::BoundingSphere(sphere), &along_x(1.0, 2.0))
}

#[test]
fn rays_from_a_triangle(rt: HostRuntime) -> Result<(), Fail> {
    let triangle = Shape::Triangle(Triangle {
        a: Vector::zero(),
        b: Vector::new(1.0, 0.0, 0.0),
        c: Vector::new(0.0, 1.0, 0.0),
    });
    let up = Vector::new(0.0, 0.0, 1.0);
    let on = Ray::new(Vector::new(0.25, 0.25, 0.0), up);
    let hit = triangle.cast_local_ray_and_get_normal(&on, 1.0, true);
    assert_eq!(rt;
        hit,
        Some(RayIntersection::new(0.0, up.neg(), FeatureId::Face(1)))
    );
    let beside = Ray::new(Vector::new(-0.25, -0.25, 0.0), up);
    assert_eq!(rt;
        triangle.cast_local_ray_and_get_normal(&beside, 1.0, true),
        None
    );
    Ok(())
}

#[test]
fn ray_along_a_half_space(rt: HostRuntime) -> Result<(), Fail> {
    let ground = Shape::HalfSpace(HalfSpace {
        normal: Vector::new(0.0, 1.0, 0.0),
    });
    let ray = along_x(0.0, -1.0);
    assert_eq!(rt;
        ground.cast_local_ray_and_get_normal(&ray, f32::INFINITY, false),
        None
    );
    let hit = ground.cast_local_ray_and_get_normal(&ray, 1.0, true);
    assert_eq!(rt;
        hit,
        Some(RayIntersection::new(0.0, Vector::zero(), FeatureId::Face(0)))
    );
    Ok(())
}

// The square of 2^-100 is too small for f32, so the exit comes out before the origin.
#[test]
fn tiny_ball(rt: HostRuntime) -> Result<(), Fail> {
    let size: f32 = 1.0 / 1125899906842624.0 / 1125899906842624.0;
    let ray = along_x(size, 0.0);
    let found = ray_toi_with_ball(Vector::zero(), size, &ray, false).ok_or("no time")?;
    assert_eq!(rt; found.at, -size);
    let ball = Shape::Ball(Ball { radius: size });
    assert_eq!(rt; ball.cast_local_ray_and_get_normal(&ray, 1.0, false), None);
    Ok(())
}
