//! A line of the list: a record and the four answers that were recorded for it, or every change of one of its bytes and a
//! digest of the answers.
use crate::answer::Answer;
use anyhow::{Context, ensure};
use fields::consts::DIR_ENTRY_LEN;
use fields::validate::Validation;
use fields::version::Version;
use hex::FromHex;
use records::direntry::DirEntry;
use std::alloc::{AllocError, Global};

type Record = [u8; DIR_ENTRY_LEN];

/// The digits of a record in hex.
const RECORD_DIGITS: usize = 2 * DIR_ENTRY_LEN;

/// The versions and modes in which each record was read, in the order of its answers.
const READINGS: [(Version, Validation); 4] = [
    (Version::V3, Validation::Strict),
    (Version::V3, Validation::Permissive),
    (Version::V4, Validation::Strict),
    (Version::V4, Validation::Permissive),
];

/// Whether the port gives the answers of a line for one record.
pub fn agrees(heap: Global, id: u32, line: &str) -> anyhow::Result<bool> {
    let (hex, told) = line.split_once(' ').context("a line without answers")?;
    let record = record_of(hex)?;
    Ok(answers(heap, id, &record)?.as_str() == told)
}

/// Whether the port gives the answers for the 255 records with another value in one byte: `RECORD BYTE DIGEST`.
pub fn agrees_on_every(heap: Global, line: &str) -> anyhow::Result<bool> {
    let mut words = line.split(' ');
    let record = record_of(words.next().unwrap_or(""))?;
    let at = words.next().unwrap_or("").parse::<usize>()?;
    let told = u64::from_str_radix(words.next().unwrap_or(""), 16)?;
    ensure!(at < record.len(), "a byte outside the record");
    let mut digest = Digest::new();
    for value in 0..=u8::MAX {
        if value != record[at] {
            let mut changed = record;
            changed[at] = value;
            digest.take_line(answers(heap, 0, &changed)?.as_str());
        }
    }
    Ok(digest.0 == told)
}

/// A record in hex, in small digits. One digit behind it says nothing.
fn record_of(hex: &str) -> anyhow::Result<Record> {
    // As the digits come: two behind the record are too many, whatever follows them.
    let digits = &hex.as_bytes()[..hex.len().min(RECORD_DIGITS + 2)];
    // `hex` would take capitals too.
    ensure!(
        digits
            .iter()
            .all(|digit| matches!(digit, b'0'..=b'9' | b'a'..=b'f')),
        "no hex digit"
    );
    ensure!(
        digits.len() < RECORD_DIGITS + 2,
        "a record of more than 128 bytes"
    );
    ensure!(
        digits.len() >= RECORD_DIGITS,
        "a record of fewer than 128 bytes"
    );
    Ok(Record::from_hex(&digits[..RECORD_DIGITS])?)
}

/// A digest of lines: FNV-1a, 64 bits.
#[derive(Drop)]
struct Digest(u64);

impl Digest {
    fn new() -> Digest {
        Digest(0xcbf2_9ce4_8422_2325)
    }

    fn take_line(&mut self, line: &str) {
        for byte in line.bytes() {
            self.take(byte);
        }
        self.take(b'\n');
    }

    fn take(&mut self, byte: u8) {
        self.0 = (self.0 ^ u64::from(byte)).wrapping_mul(0x100_0000_01b3);
    }
}

/// The answers for a record, as the list has them: `=` stands for the answer before.
fn answers(heap: Global, id: u32, record: &Record) -> Result<String, AllocError> {
    let mut all = String::new(heap);
    let mut before = String::new(heap);
    for (version, validation) in READINGS {
        let answer = Answer {
            record,
            read: DirEntry::read_from(record, id, version, validation),
        };
        let answer = format!(in heap; "{answer}")?;
        if !all.is_empty() {
            all.push(' ')?;
        }
        all.push_str(if answer == before {
            "="
        } else {
            answer.as_str()
        })?;
        before = answer;
    }
    Ok(all)
}
