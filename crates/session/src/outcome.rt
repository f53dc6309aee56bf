// What a line of a setup file comes to.
ghost use Rattle.std.specs.Prelude.{◌≡◌};
ghost use Rattle.session.specs.declared.outcome.Outcome.TheVariants.{Refused};
ghost use Rattle.session.specs.Outcomes.{is_sight};

use refusals::Refusal;
use setup::Expected;

#[derive(Clone, Copy)]
pub enum Outcome {
    // A blank line.
    Blank,
    // A room, a mark or a wipe that was carried out.
    Done,
    // A sight line that nothing stops, with the number of keys that the walk stood on.
    Clear { visited: u32 },
    // A sight line that the cell with this number stops, at this share of the way.
    Blocked { cell: u16, time: f32, visited: u32 },
    Refused(Refusal),
    // A statement before any room.
    RoomMissing,
    // A room where there is one.
    RoomTwice,
    // A line that is no statement.
    Unclear(Expected),
}

impl Outcome {
    // Whether it answers a sight line.
    pub fn is_sight(&self) -> bool
        ensures { result ≡ is_sight self.now }
    {
        matches!(self, Outcome::Clear { .. } | Outcome::Blocked { .. })
    }
}

impl From<Refusal> for Outcome {
    ghost from_gives = { λ r o. o ≡ Refused r };

    fn from(refusal: Refusal) -> Outcome {
        Outcome::Refused(refusal)
    }
}
