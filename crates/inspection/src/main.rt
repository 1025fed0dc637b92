//! One vehicle's inspection, followed from the names of its parts to their paths, and told in print.
#![tactic(auto)]

mod listing;
mod sector;
mod text;

use fields::consts::DIR_ENTRY_LEN;
use listing::Listing;
use names::folding::TableFolding;
use names::name::validate_name;
use paths::name_chain_from_path;
use sector::{Row, Sector};
use text::{Text, utf16};

/// The letters above ASCII that the workshop's names use, small to large.
const LETTERS: [(u32, u32); 4] = [(0xe4, 0xc4), (0xf6, 0xd6), (0xfc, 0xdc), (0xe5, 0xc5)];

/// What the bench writes down in one inspection, in the order in which it is written.
const PARTS: [&str; 9] = [
    "Pulses",
    "tyres",
    "seals",
    "Trial run",
    "Draft B",
    "draft a",
    "Übersicht",
    "SEALS",
    "w/k",
];

/// Where the bench looks for them afterwards.
const PATHS: [&str; 6] = [
    "/Monday/Pulses",
    "Monday//./tyres/",
    "/Monday/Trial run/../seals",
    "/Monday/drafts/../../Tuesday/./Pulses",
    "/",
    "/Monday/../../Tuesday",
];

fn names_in_order(rt: &HostRuntime) -> anyhow::Result<()> {
    let heap = rt.alloc();
    let mut listing = Listing::new(heap, TableFolding::new(&LETTERS));
    println!(rt; "Names as the bench gives them:")?;
    for part in PARTS {
        let units = utf16(heap, part)?;
        match validate_name(&units) {
            Ok(name) => match listing.enter(name)? {
                None => println!(rt; "  {part}")?,
                Some(held) => {
                    let held = Text(held.units());
                    println!(rt; "  {part}: there already, as {held}")?
                }
            },
            Err(refusal) => {
                let number = refusal.number();
                println!(rt; "  {part}: refused, {number}")?
            }
        }
    }
    println!(rt; "In directory order, shorter first:")?;
    for name in listing.names() {
        let name = Text(name.units());
        println!(rt; "  {name}")?;
    }
    Ok(())
}

fn paths_resolved(rt: &HostRuntime) -> anyhow::Result<()> {
    let heap = rt.alloc();
    println!(rt; "Where the paths lead:")?;
    for path in PATHS {
        let units = utf16(heap, path)?;
        match name_chain_from_path(&units) {
            Ok(chain) => {
                print!(rt; "  {path}: the root")?;
                for part in chain.names() {
                    let name = Text(part.units);
                    let place = part.place;
                    print!(rt; ", {name} (from unit {place})")?;
                }
                println!(rt; "")?;
            }
            Err(refusal) => {
                let number = refusal.number();
                println!(rt; "  {path}: refused, {number}")?;
            }
        }
    }
    Ok(())
}

fn tell_records(rt: &HostRuntime, sector: &Sector) -> anyhow::Result<()> {
    let (records, _) = sector.as_chunks::<DIR_ENTRY_LEN>();
    for (number, record) in (0..).zip(records) {
        match sector::read(record, number) {
            Ok(entry) => {
                let row = Row(entry);
                println!(rt; "  {number}  {row}")?
            }
            Err(refusal) => {
                let why = refusal.number();
                let record = refusal.id;
                let offset = refusal.offset();
                println!(rt; "  {number}  refused, {why}: record {record}, offset {offset}")?
            }
        }
    }
    Ok(())
}

fn records_written(rt: &HostRuntime) -> anyhow::Result<()> {
    let entries = sector::monday(rt.alloc())?;
    let mut sector = sector::write(&entries);
    println!(rt; "Monday's records, written into one sector and read back strictly:")?;
    tell_records(rt, &sector)?;
    sector::damage(&mut sector);
    println!(rt; "The same with one byte spoiled:")?;
    tell_records(rt, &sector)
}

fn run(rt: &HostRuntime) -> anyhow::Result<()> {
    println!(rt; "Inspection of vehicle 417 on Monday")?;
    println!(rt; "")?;
    names_in_order(rt)?;
    println!(rt; "")?;
    paths_resolved(rt)?;
    println!(rt; "")?;
    records_written(rt)
}

fn main(rt: HostRuntime) -> anyhow::Result<()> {
    run(&rt)
}
