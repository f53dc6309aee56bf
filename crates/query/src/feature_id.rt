// The part of a shape that was hit.

#[derive(Clone, Copy, PartialEq, Eq, Debug)]
pub enum FeatureId {
    Vertex(u32),
    Edge(u32),
    Face(u32),
    Unknown,
}
