//! Replays recorded answers of the Rust crate for the order of names, their keys and paths, and counts those that differ.
#![tactic(auto)]

mod case;
mod line;
mod tally;
#[cfg(test)]
mod tests;

use case::Case;
use line::{Line, Under};
use names::folding::{AsciiFolding, TableFolding};
use tally::Tally;

/// Whether the port answers a case as it was recorded, under the folding that was chosen last.
fn agrees(case: &Case, under: Under, pairs: &[(u32, u32)]) -> bool {
    // A match: the two foldings are of two types.
    match under {
        Under::Ascii => case.agrees(&AsciiFolding),
        Under::Table => case.agrees(&TableFolding::new(pairs)),
    }
}

fn replay(rt: &HostRuntime) -> anyhow::Result<Tally> {
    let heap = rt.alloc();
    let mut pairs = Vec::new(heap);
    let mut under = Under::Ascii;
    let mut tally = Tally::default();
    for text in rt.lines(heap) {
        let text = text?;
        match Line::read(heap, text.as_str())? {
            Line::Pair(from, to) => pairs.push((from, to))?,
            Line::Under(folding) => under = folding,
            Line::Case(case) => {
                let agreed = agrees(&case, under, pairs.as_slice());
                tally.count(&case, agreed);
                if !agreed {
                    println!(rt; "differs: {text}")?;
                }
            }
        }
    }
    Ok(tally)
}

// Each replay is a program, and has its own.
fn main(rt: HostRuntime) -> anyhow::Result<()> {
    rt.println(replay(&rt)?)?;
    Ok(())
}
