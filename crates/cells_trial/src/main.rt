//! Runs a table of names against a map of the standard library, and measures how far its searches go.
#![tactic(auto)]

mod count;
mod random;
mod reach;
mod trial;

use cells::cell::Cell;
use cells::refusal::FewCells;
use cells::repeat::find_repeat;
use keys::sector::SectorNumber;
use reach::measure;
use trial::run;

/// As many cells as keys; then fewer cells, so that some insertions are refused.
fn run_trials(rt: &HostRuntime) -> anyhow::Result<()> {
    let even = run(rt.alloc(), 300, 300)?;
    rt.println("10000 random calls, 300 keys, 300 cells")?;
    rt.println(even)?;
    let short = run(rt.alloc(), 300, 100)?;
    rt.println("10000 random calls, 300 keys, 100 cells")?;
    rt.println(short)?;
    Ok(())
}

fn measure_reach(rt: &HostRuntime) -> anyhow::Result<()> {
    let reach = measure(rt.alloc(), 10000)?;
    rt.println("10000 keys in 10000 cells, cells looked at in a search")?;
    rt.println(reach)?;
    Ok(())
}

/// Where a number of a list stands for the second time, told with four cells.
fn tell_repeat(rt: &HostRuntime, numbers: &[u32]) -> anyhow::Result<()> {
    let mut cells: [Cell<SectorNumber>; 4] = [Cell::empty(); 4];
    match find_repeat(&mut cells, numbers) {
        Ok(Some(place)) => println!(rt; "  {numbers:?}: again at place {place}")?,
        Ok(None) => println!(rt; "  {numbers:?}: none")?,
        Err(FewCells) => println!(rt; "  {numbers:?}: too few cells")?,
    }
    Ok(())
}

fn tell_repeats(rt: &HostRuntime) -> anyhow::Result<()> {
    rt.println("a number listed twice, four cells")?;
    tell_repeat(rt, &[7, 3, 9, 5])?;
    tell_repeat(rt, &[7, 3, 7, 3])?;
    tell_repeat(rt, &[0, 1, 2, 2])?;
    tell_repeat(rt, &[1, 1, 1, 1, 1])
}

fn main(rt: HostRuntime) -> anyhow::Result<()> {
    run_trials(&rt)?;
    measure_reach(&rt)?;
    tell_repeats(&rt)
}
