//! A line of the list.
use crate::case::Case;
use anyhow::anyhow;
use std::alloc::Global;
use std::cmp::Ordering;
use std::str::Split;

/// The folding of the cases that follow.
#[derive(Clone, Copy, Debug, PartialEq, Eq)]
pub enum Under {
    Ascii,
    Table,
}

/// A line of the list.
#[derive(Drop)]
pub enum Line {
    /// A pair of the table.
    Pair(u32, u32),
    Under(Under),
    Case(Case),
}

impl Line {
    // A word that the line lacks is `-` where units are asked for first, and else an empty one. The last units are read first.
    pub fn read(heap: Global, line: &str) -> anyhow::Result<Line> {
        let mut words = line.split(' ');
        match words.next().unwrap_or("") {
            "ascii" => Ok(Line::Under(Under::Ascii)),
            "table" => Ok(Line::Under(Under::Table)),
            "fold" => {
                let from = code(words.next().unwrap_or("-"))?;
                Ok(Line::Pair(from, code(words.next().unwrap_or(""))?))
            }
            "compare" => {
                let left = words.next().unwrap_or("-");
                let right = units(heap, words.next().unwrap_or("-"))?;
                let left = units(heap, left)?;
                let order = order(words.next().unwrap_or(""))?;
                Ok(Line::Case(Case::Compare(left, right, order)))
            }
            "key" => {
                let left = words.next().unwrap_or("-");
                let right = units(heap, words.next().unwrap_or("-"))?;
                let left = units(heap, left)?;
                let same = words.next().unwrap_or("") == "same";
                Ok(Line::Case(Case::Key(left, right, same)))
            }
            "chain" => {
                let path = words.next().unwrap_or("-");
                let names = names(heap, words)?;
                Ok(Line::Case(Case::Chain(units(heap, path)?, names)))
            }
            _ => Err(anyhow!("a line of no known kind")),
        }
    }
}

fn code(word: &str) -> anyhow::Result<u32> {
    Ok(u32::from_str_radix(word, 16)?)
}

// No `FromStr`: the type is the library's.
fn order(word: &str) -> anyhow::Result<Ordering> {
    match word {
        "less" => Ok(Ordering::Less),
        "equal" => Ok(Ordering::Equal),
        "greater" => Ok(Ordering::Greater),
        _ => Err(anyhow!("no order")),
    }
}

/// Units in hex, four small digits each; `-` for none. What is left of a last unit that is not whole says nothing.
// Digit by digit, and not by `hex`: it takes capitals too, needs the bytes of a whole word at once, and unit by unit more time.
fn units(heap: Global, word: &str) -> anyhow::Result<Vec<u16>> {
    let mut units = Vec::new(heap);
    if word == "-" {
        return Ok(units);
    }
    let mut unit: u16 = 0;
    let mut digits: u8 = 0;
    for byte in word.bytes() {
        let Some(digit) = hex_digit(byte) else {
            return Err(anyhow!("no hex digit"));
        };
        unit = unit.wrapping_mul(16).wrapping_add(digit);
        digits = digits.wrapping_add(1);
        if digits == 4 {
            units.push(unit)?;
            digits = 0;
        }
    }
    Ok(units)
}

fn hex_digit(byte: u8) -> Option<u16> {
    match byte {
        b'0'..=b'9' => Some(u16::from(byte - b'0')),
        b'a'..=b'f' => Some(u16::from(byte - b'a' + 10)),
        _ => None,
    }
}

/// The names that a path leaves, or none where it is refused.
fn names(heap: Global, words: Split<'_, char>) -> anyhow::Result<Option<Vec<Vec<u16>>>> {
    // A loop, since a unit that is no hex ends it with an error.
    let mut names = Vec::new(heap);
    for word in words {
        if word == "refused" {
            return Ok(None);
        }
        names.push(units(heap, word)?)?;
    }
    Ok(Some(names))
}
