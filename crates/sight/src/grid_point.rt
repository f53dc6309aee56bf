// Points of the grid on which sight lines begin and end.
ghost use Rattle.std.specs.Prelude.{◌≡◌, ◌≤◌, true, false, pos, MatchResult};
ghost use Rattle.refusals.specs.declared.Refusal.TheVariants.{PointOutside};
ghost use Rattle.sight.specs.Ranges.{grid_fits};

use math::IVector;
use refusals::Refusal;

// Three whole numbers from 0 to 1023, in units of 1/128 cell from the chunk's lowest corner. No point exists outside that.
#[derive(Clone, Copy)]
pub struct GridPoint {
    pub(crate) x: u16,
    pub(crate) y: u16,
    pub(crate) z: u16,
    ghost ok: { (x ≤ 1023) × ((y ≤ 1023) × (z ≤ 1023)) },
}

impl GridPoint {
    // The point with these coordinates; refused where one is outside 0..=1023.
    pub fn new(point: IVector) -> Result<GridPoint, Refusal>
        ensures { MatchResult result (λ p. (grid_fits point ≡ true) × ((pos p.x ≡ point.x) × ((pos p.y ≡ point.y) × (pos p.z ≡ point.z)))) (λ e. (grid_fits point ≡ false) × (e ≡ PointOutside)) }
    {
        if point.all_between::<0, 1023>() {
            Ok(GridPoint {
                x: point.x as u16,
                y: point.y as u16,
                z: point.z as u16,
            })
        } else {
            Err(Refusal::PointOutside)
        }
    }
}
