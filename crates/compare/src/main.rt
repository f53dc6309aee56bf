// Answers comparison vectors: reads lines from standard input and writes them with the answers of this code.
#![tactic(auto)]

mod answer;
mod case;
mod words;

use answer::Answer;
use case::{Case, read_case};
use setup::{before, lines_of, words_of};
use std::io::Read;

// The words of the question, then the answer.
fn print_answer(rt: &HostRuntime, asked: &[u8], case: &Case) -> anyhow::Result<()> {
    for word in words_of(asked) {
        let word = String::from_utf8_lossy(rt.alloc(), word)?;
        print!(rt; "{word} ")?;
    }
    let answer = Answer::new(case);
    println!(rt; "= {answer}")?;
    Ok(())
}

fn answer_all(rt: &HostRuntime) -> anyhow::Result<()> {
    let mut text = Vec::new(rt.alloc());
    rt.stdin().read_to_end(&mut text)?;
    for (index, line) in lines_of(text.as_slice()).enumerate() {
        // the question, without its answer
        let asked = before(line, b'=');
        if words_of(asked).next().is_none() {
            continue;
        }
        match read_case(asked) {
            Some(case) => print_answer(rt, asked, &case)?,
            None => {
                let number = index + 1;
                println!(rt; "line {number}: not understood")?;
            }
        }
    }
    Ok(())
}

fn main(rt: HostRuntime) -> anyhow::Result<()> {
    answer_all(&rt)
}
