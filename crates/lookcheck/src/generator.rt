// Numbers that look random, the same in every run, and the ends of sight lines made of them.
use math::IVector;

#[derive(Drop)]
pub(crate) struct Generator {
    state: u64,
}

impl Generator {
    pub(crate) fn new() -> Generator {
        Generator { state: 20_261_127 }
    }

    // A number below `end`, and 0 where that is 0.
    pub(crate) fn below(&mut self, end: u16) -> u16 {
        self.state = self
            .state
            .wrapping_mul(6_364_136_223_846_793_005)
            .wrapping_add(1_442_695_040_888_963_407);
        // the upper bits, which repeat later than the lower ones
        let high = (self.state >> 48) as u16;
        high.checked_rem(end).unwrap_or(0)
    }

    fn coordinate(&mut self) -> i32 {
        i32::from(self.below(1024))
    }

    // On a face of a cell, or one unit before or after it, and within 0..=1023.
    fn beside_face(&mut self) -> i32 {
        let face = 128 * i32::from(self.below(9));
        (face + i32::from(self.below(3)) - 1).clamp(0, 1023)
    }

    fn point(&mut self) -> IVector {
        IVector {
            x: self.coordinate(),
            y: self.coordinate(),
            z: self.coordinate(),
        }
    }

    fn point_beside_faces(&mut self) -> IVector {
        IVector {
            x: self.beside_face(),
            y: self.beside_face(),
            z: self.beside_face(),
        }
    }

    // That distance up or down from a coordinate, or none, as far as the chunk goes.
    fn moved(&mut self, from: i32, distance: i32) -> i32 {
        match self.below(3) {
            0 => from,
            1 => from.saturating_add(distance).clamp(0, 1023),
            _ => from.saturating_sub(distance).clamp(0, 1023),
        }
    }

    // The two ends of a sight line: anywhere, beside faces, as far from one another on some of the axes, or with one coordinate kept.
    pub(crate) fn ends(&mut self) -> (IVector, IVector) {
        match self.below(4) {
            0 => (self.point(), self.point()),
            1 => (self.point_beside_faces(), self.point_beside_faces()),
            2 => {
                let camera = self.point_beside_faces();
                let distance = self.coordinate();
                let target = IVector {
                    x: self.moved(camera.x, distance),
                    y: self.moved(camera.y, distance),
                    z: self.moved(camera.z, distance),
                };
                (camera, target)
            }
            _ => {
                let camera = self.point_beside_faces();
                let target = IVector {
                    y: camera.y,
                    ..self.point()
                };
                (camera, target)
            }
        }
    }
}
