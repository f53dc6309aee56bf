// Whole setup files, line by line.
use crate::outcome::Outcome;
use crate::run::{NoRoom, run, run_into};
use crate::tally::{Tally, tally_of};
use std::test::Fail;
use stores::cell_store::CellStore;
use stores::table_store::TableStore;

// Each line of the text in words, as one text.
fn answers(rt: &HostRuntime, text: &str) -> Result<String, Fail> {
    let outcomes = run::<TableStore>(rt.alloc(), text.as_bytes())?;
    let mut words = String::new(rt.alloc());
    for outcome in outcomes.as_slice() {
        words.push_str(outcome.to_string(rt.alloc())?.as_str())?;
        words.push_str("\n")?;
    }
    Ok(words)
}

#[test]
fn looks_marks_and_wipes(rt: HostRuntime) -> Result<(), Fail> {
    let text =
        "room 0 0 0 0 7\nmark 3 0 0\nsight 64 64 64 576 64 64\nwipe 3 0 0\nsight 64 64 64 576 64 64\n";
    let words = answers(&rt, text)?;
    assert_eq!(rt;
        words.as_str(),
        "done\ndone\nblocked by cell (3, 0, 0), number 3, 0.625 of the way; 4 cells visited\ndone\nclear; 5 cells visited\n"
    );
    Ok(())
}

#[test]
fn bad_lines_are_named_and_the_rest_answered(rt: HostRuntime) -> Result<(), Fail> {
    let text =
        "sight 0 0 0 1 1 1\nroom 11 0 0 0 0\nroom 0 0 0 0 -1\nroom 0 0 0 0 0\nroom 0 0 0 0 0\nmark 0 8 0\nsight 0 0 1024 1 1 1\nmark 1\nsight 0 0 0 1 1 1\n";
    let words = answers(&rt, text)?;
    assert_eq!(rt;
        words.as_str(),
        "expected an accepted room before this\nrefused, number 12: the size, a key or the id is out of range\nrefused, number 12: the size, a key or the id is out of range\ndone\nthe room is given already; this one is passed over\nrefused, number 2: a cell coordinate is outside 0 to 7\nrefused, number 1: a grid coordinate is outside 0 to 1023\nnot understood: expected 3 numbers after mark\nclear; 1 cell visited\n"
    );
    Ok(())
}

#[test]
fn counts(rt: HostRuntime) -> Result<(), Fail> {
    let text =
        "room 0 0 0 0 0\nmark 1 0 0\nsight 0 0 0 200 0 0\nsight 0 200 0 200 200 0\nmark 9 9 9\n\n# x\nlook\n";
    let outcomes = run::<TableStore>(rt.alloc(), text.as_bytes())?;
    assert_eq!(rt;
        tally_of(outcomes.as_slice()),
        Tally {
            clear: 1,
            blocked: 1,
            refused: 1,
            unclear: 1,
        }
    );
    Ok(())
}

#[test]
fn without_room_for_each_line_none_is_carried_out(rt: HostRuntime) -> Result<(), Fail> {
    let mut outcomes = Vec::with_capacity(rt.alloc(), 4)?;
    assert_eq!(rt; outcomes.capacity(), 4);
    run_into::<TableStore>(b"room 0 0 0 0 0\n\n", &mut outcomes)?;
    assert_eq!(rt; outcomes.len(), 2);
    assert_eq!(rt;
        run_into::<TableStore>(b"\n\n\n", &mut outcomes),
        Err(NoRoom)
    );
    assert_eq!(rt; outcomes.len(), 2);
    run_into::<TableStore>(b"mark 0 0 0\nlook", &mut outcomes)?;
    assert_eq!(rt; outcomes.len(), 4);
    Ok(())
}
