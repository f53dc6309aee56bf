// The corner that a setup file describes, as far as it has been read.
ghost use Rattle.std.specs.Prelude.{◌≡◌, Some, None, MatchResult};
ghost use Rattle.setup.specs.Grammar.{line_meaning};
ghost use Rattle.session.specs.Answers.{Sees, InCorner, Opens, BeforeRoom, Answers, AnswersLine};

use crate::outcome::Outcome;
use looks::look;
use math::IVector;
use query::feature_id::FeatureId;
use refusals::Refusal;
use setup::{Statement, parse_line};
use sight::grid_point::GridPoint;
use sight::scan::Scan;
use stores::cell_store::CellStore;
use voxels::chunk_cast::ChunkCast;

// A sight line from camera to target.
fn sight<S: CellStore>(scan: &Scan<S>, camera: IVector, target: IVector) -> Result<Outcome, Refusal>
    ensures { MatchResult result (λ o. Sees S.CellStore.kinds scan.now camera target o) (λ r. Sees S.CellStore.kinds scan.now camera target (Outcome.Refused r)) }
{
    let from = GridPoint::new(camera)?;
    let to = GridPoint::new(target)?;
    let cast = look(scan, &from, &to);
    let visited = cast.visited;
    let Some(hit) = cast.hit else {
        return Ok(Outcome::Clear { visited });
    };
    match hit.feature {
        FeatureId::Face(face) => Ok(Outcome::Blocked {
            cell: (face % 512) as u16,
            time: hit.time_of_impact,
            visited,
        }),
        // a chunk's hit names a face
        _ => unreachable!(),
    }
}

// A statement on a corner.
fn in_corner<S: CellStore>(scan: &mut Scan<S>, statement: Statement) -> Result<Outcome, Refusal>
    ensures { MatchResult result (λ o. InCorner S.CellStore.kinds S.CellStore.capacity scan.old statement o scan.new) (λ r. InCorner S.CellStore.kinds S.CellStore.capacity scan.old statement (Outcome.Refused r) scan.new) }
{
    match statement {
        Statement::Room { .. } => Ok(Outcome::RoomTwice),
        Statement::Mark { cell } => {
            scan.mark(cell)?;
            Ok(Outcome::Done)
        }
        Statement::Wipe { cell } => {
            scan.wipe(cell)?;
            Ok(Outcome::Done)
        }
        Statement::Sight { camera, target } => sight(scan, camera, target),
    }
}

// A new corner.
fn open_room<S: CellStore>(exponent: i32, key: IVector, id: i32) -> Result<Scan<S>, Refusal>
    ensures { MatchResult result (λ s. Opens S.CellStore.kinds exponent key id Outcome.Done (Some s)) (λ r. Opens S.CellStore.kinds exponent key id (Outcome.Refused r) None) }
{
    let id = u32::try_from(id).map_err(|_| Refusal::BadMaking)?;
    Scan::new(exponent, key, id)
}

// A statement where there is no corner yet: a new one, or what the statement comes to.
fn before_room<S: CellStore>(statement: Statement) -> Result<Scan<S>, Outcome>
    ensures { MatchResult result (λ s. BeforeRoom S.CellStore.kinds statement Outcome.Done (Some s)) (λ o. BeforeRoom S.CellStore.kinds statement o None) }
{
    match statement {
        Statement::Room { exponent, key, id } => Ok(open_room(exponent, key, id)?),
        _ => Err(Outcome::RoomMissing),
    }
}

// The corner so far: none before an accepted room.
#[derive(Drop)]
pub struct Session<S> {
    corner: Option<Scan<S>>,
}

impl<S: CellStore + Drop> Session<S> {
    pub fn new() -> Session<S>
        ensures { result.corner ≡ None }
    {
        Session { corner: None }
    }

    // Carries out a statement.
    pub fn answer(&mut self, statement: Statement) -> Outcome
        ensures { Answers S.CellStore.kinds S.CellStore.capacity self.old.corner statement result self.new.corner }
    {
        match &mut self.corner {
            Some(scan) => in_corner(scan, statement).unwrap_or_else(Outcome::from),
            None => match before_room(statement) {
                Ok(scan) => {
                    self.corner = Some(scan);
                    Outcome::Done
                }
                Err(outcome) => outcome,
            },
        }
    }

    // Carries out a line.
    pub fn answer_line(&mut self, line: &[u8]) -> Outcome
        ensures { AnswersLine S.CellStore.kinds S.CellStore.capacity self.old.corner (line_meaning line.now) result self.new.corner }
    {
        match parse_line(line) {
            Ok(None) => Outcome::Blank,
            Ok(Some(statement)) => self.answer(statement),
            Err(expected) => Outcome::Unclear(expected),
        }
    }
}
