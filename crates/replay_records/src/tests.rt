//! A line of the list agrees, and does not with another answer or another record; and how a record in hex is read.
use crate::case::{agrees, agrees_on_every};

const RECORD: &str =
    "53006100640064006c006500000000000000000000000000000000000000000000000000000000000000000000000000000000000000000000000000000000000e00010104000000ffffffff070000001032547698badcfe010203040506070803000000bc9a78563412d901bd9a78563412d901000000000000000000000000";

/// What was recorded of it.
const TOLD: &str =
    "0053006100640064006c0065.1.1.4.ffffffff.7.1032547698badcfe0102030405060708.3.1d9123456789abc.1d9123456789abd.0.0. = = =";

/// The digest of its answers when its first byte is changed.
const DIGEST: &str = "ef11efc3c243b635";

#[test]
fn one_answer_tells(rt: HostRuntime) -> anyhow::Result<()> {
    let heap = rt.alloc();
    let line = format!(in heap; "{RECORD} {TOLD}")?;
    assert!(rt; agrees(heap, 1, line.as_str())?);
    let other = format!(in heap; "{RECORD} {TOLD}0")?;
    assert!(rt; !agrees(heap, 1, other.as_str())?);
    // The same record but for its first letter.
    let rest = RECORD.strip_prefix("53").unwrap_or("");
    let other = format!(in heap; "52{rest} {TOLD}")?;
    assert!(rt; !agrees(heap, 1, other.as_str())?);
    Ok(())
}

#[test]
fn every_change_tells(rt: HostRuntime) -> anyhow::Result<()> {
    let heap = rt.alloc();
    let line = format!(in heap; "{RECORD} 0 {DIGEST}")?;
    assert!(rt; agrees_on_every(heap, line.as_str())?);
    let other = format!(in heap; "{RECORD} 1 {DIGEST}")?;
    assert!(rt; !agrees_on_every(heap, other.as_str())?);
    Ok(())
}

#[test]
fn records_have_small_digits(rt: HostRuntime) -> anyhow::Result<()> {
    let heap = rt.alloc();
    let longer = format!(in heap; "{RECORD}0 {TOLD}")?;
    assert!(rt; agrees(heap, 1, longer.as_str())?);
    let too_long = format!(in heap; "{RECORD}00 {TOLD}")?;
    assert!(rt; agrees(heap, 1, too_long.as_str()).is_err());
    let rest = RECORD.strip_prefix("53").unwrap_or("");
    let too_short = format!(in heap; "5{rest} {TOLD}")?;
    assert!(rt; agrees(heap, 1, too_short.as_str()).is_err());
    let capital = format!(in heap; "5A{rest} {TOLD}")?;
    assert!(rt; agrees(heap, 1, capital.as_str()).is_err());
    Ok(())
}
