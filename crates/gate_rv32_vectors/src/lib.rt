//! Compares decoding, execution and AMOs with tables that other implementations wrote, and prints how many
//! lines of each agree.
#![tactic(auto)]

mod tables;

use std::rt::Files;
use std::{fs, io};
use tables::Table;

/// How many lines stand below a table's head, and how many of them this code agrees with.
fn count_lines(table: Table, text: &str) -> (u32, u32) {
    let mut lines = 0u32;
    let mut agreed = 0u32;
    for line in text.lines().skip(1) {
        lines = lines.saturating_add(1);
        if table.agrees(line) == Some(true) {
            agreed = agreed.saturating_add(1);
        }
    }
    (lines, agreed)
}

/// Prints on how many of the lines below a table's head this code agrees with it.
fn compare<R: Files + AllocGlobal + Print>(
    rt: &R,
    table: Table,
    path: &str,
    what: &str,
) -> io::Result<()> {
    let text = fs::read_to_string(rt, path)?;
    let (lines, agreed) = count_lines(table, text.as_str());
    println!(rt; "{agreed} of {lines} {what}")
}

/// Compares each table, and prints how many of its lines agree.
pub fn compare_all<R: Files + AllocGlobal + Print>(rt: &R) -> io::Result<()> {
    compare(rt, Table::Words, "vectors/words.tsv", "words")?;
    compare(
        rt,
        Table::Instructions,
        "vectors/instructions.tsv",
        "instructions",
    )?;
    compare(
        rt,
        Table::AmoResults,
        "vectors/amo_results.tsv",
        "AMO results",
    )
}
