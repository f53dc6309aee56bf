// Reads a setup file, from the path that is its argument or from standard input, and says of each sight line whether it is clear.
#![tactic(auto)]

use session::outcome::Outcome;
use session::run::run;
use session::tally::{Tally, tally_of};
use std::io::Read;
use std::{env, fs, io};
use stores::cell_store::CellStore;
use stores::table_store::TableStore;

fn setup_text(rt: &HostRuntime) -> io::Result<Vec<u8>> {
    let mut args = env::args(rt)?;
    let _ = args.next();
    match args.next() {
        Some(path) => fs::read(rt, path.as_str()),
        None => {
            let mut text = Vec::new(rt.alloc());
            rt.stdin().read_to_end(&mut text)?;
            Ok(text)
        }
    }
}

// Prints what a line came to, if that is to be read out: a sight line with its number among these, another with the number of its line.
fn print_outcome(rt: &HostRuntime, line: usize, sight: usize, outcome: &Outcome) -> io::Result<()> {
    if outcome.is_sight() {
        return println!(rt; "sight {sight} (line {line}): {outcome}");
    }
    match outcome {
        Outcome::Blank | Outcome::Done => Ok(()),
        _ => println!(rt; "line {line}: {outcome}"),
    }
}

fn check(rt: &HostRuntime) -> anyhow::Result<()> {
    let text = setup_text(rt)?;
    let outcomes = run::<TableStore>(rt.alloc(), text.as_slice())?;
    // by hand, since it counts the sight lines alone
    let mut sights = 0usize;
    for (index, outcome) in outcomes.iter().enumerate() {
        if outcome.is_sight() {
            sights = sights.saturating_add(1);
        }
        print_outcome(rt, index + 1, sights, outcome)?;
    }
    let Tally {
        clear,
        blocked,
        refused,
        unclear,
    } = tally_of(outcomes.as_slice());
    println!(rt;
        "{sights} sight lines: {clear} clear, {blocked} blocked. {refused} lines refused, {unclear} not understood."
    )?;
    Ok(())
}

fn main(rt: HostRuntime) -> anyhow::Result<()> {
    check(&rt)
}
