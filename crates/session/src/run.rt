// A whole setup file.
ghost use Rattle.std.specs.Prelude.{◌≡◌, ◌-◌, IfOk, None, vec_len, vec_capacity};
ghost use Rattle.setup.specs.Grammar.{lines};
ghost use Rattle.session.specs.Runs.{Runs, CarriesOut};

use crate::outcome::Outcome;
use crate::session::Session;
use setup::{count_lines, lines_of};
use std::alloc::{AllocError, Global};
use stores::cell_store::CellStore;

// There is no room for an outcome of each line.
#[derive(Clone, Copy, PartialEq, Eq, Debug)]
pub struct NoRoom;

// Carries out every line of a text, in order, on a store of cells of the kind S, and adds an outcome for each line.
// Want of memory is no error of it: where the room reserved in `outcomes` does not suffice for all lines, none is carried out.
pub fn run_into<S: CellStore + Drop>(text: &[u8], outcomes: &mut Vec<Outcome>) -> Result<(), NoRoom>
    ensures { CarriesOut S.CellStore.kinds S.CellStore.capacity (lines text.now) (vec_capacity outcomes.old - vec_len outcomes.old) outcomes.old.items outcomes.new.items result }
{
    if outcomes.capacity() - outcomes.len() < count_lines(text) {
        return Err(NoRoom);
    }
    let mut session: Session<S> = Session::new();
    for line in lines_of(text) {
        // there is room for an outcome of each line
        outcomes.push(session.answer_line(line)).unwrap();
    }
    Ok(())
}

// The same on a new list of outcomes. Its one error is want of memory; that it does not say so needlessly is seen by running, not proved.
pub fn run<S: CellStore + Drop>(heap: Global, text: &[u8]) -> Result<Vec<Outcome>, AllocError>
    ensures { IfOk result (λ v. Runs S.CellStore.kinds S.CellStore.capacity None (lines text.now) v.items) }
{
    let mut outcomes = Vec::with_capacity(heap, count_lines(text))?;
    // room for an outcome of each line is reserved
    run_into::<S>(text, &mut outcomes).unwrap();
    Ok(outcomes)
}
