// Holds looks of a fixed generator against a search over all cells that is written without the walk, in whole numbers: whether they are blocked, the cell, the time,
// and that no fewer keys are visited than cells are crossed.
#![tactic(auto)]

mod corner;
mod generator;
mod search;
mod verdict;

use anyhow::anyhow;
use corner::Corner;
use generator::Generator;
use verdict::{Tally, Verdict};

const CORNERS: u32 = 400;

const LOOKS_EACH: u32 = 16;

fn check(rt: &HostRuntime) -> anyhow::Result<()> {
    let mut generator = Generator::new();
    let mut tally = Tally::default();
    for _ in 0..CORNERS {
        let Ok(corner) = Corner::filled_by(&mut generator) else {
            println!(rt; "a corner was refused")?;
            continue;
        };
        for _ in 0..LOOKS_EACH {
            let (camera, target) = generator.ends();
            let verdict = corner.look(camera, target);
            if let Verdict::Wrong(what) = verdict {
                println!(rt; "from {camera:?} to {target:?}: {what}")?;
            }
            tally.count(&verdict);
        }
    }
    println!(rt; "{tally}")?;
    if tally.is_good() {
        Ok(())
    } else {
        Err(anyhow!("the search has some looks otherwise"))
    }
}

fn main(rt: HostRuntime) -> anyhow::Result<()> {
    check(&rt)
}
