//! Replays recorded answers of the Rust crate for single records, and counts those that differ.
#![tactic(auto)]

mod answer;
mod case;
mod tally;
#[cfg(test)]
mod tests;

use case::{agrees, agrees_on_every};
use tally::Tally;

fn replay(rt: &HostRuntime) -> anyhow::Result<Tally> {
    let heap = rt.alloc();
    let mut tally = Tally::default();
    for line in rt.lines(heap) {
        let line = line?;
        let agreed = match line.as_str().strip_prefix("every ") {
            Some(change) => {
                tally.bytes = tally.bytes.saturating_add(1);
                agrees_on_every(heap, change)?
            }
            None => {
                tally.records = tally.records.saturating_add(1);
                agrees(heap, tally.records, line.as_str())?
            }
        };
        tally.judge(agreed);
        if !agreed {
            println!(rt; "differs: {line}")?;
        }
    }
    Ok(tally)
}

// Each replay is a program, and has its own.
fn main(rt: HostRuntime) -> anyhow::Result<()> {
    rt.println(replay(&rt)?)?;
    Ok(())
}
