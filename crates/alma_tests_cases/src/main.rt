//! Runs files of cases, which lie where it runs: each line is a call of the program with what it
//! must answer, in JSON. Behind them it runs the examples.
#![tactic(auto)]

mod call;
mod case;
mod devices;
mod example;
mod example_run;
mod examples;
mod field;

use crate::call::is_answered;
use crate::case::name_of;
use crate::examples::run_examples;
use alma_io::{Files, StdFiles};
use anyhow::{Result, anyhow};
use serde_json::Value;

const NAMES: [&str; 14] = [
    "check.jsonl",
    "run.jsonl",
    "stats.jsonl",
    "trace.jsonl",
    "faults.jsonl",
    "rules.jsonl",
    "words.jsonl",
    "tutorial.jsonl",
    "objects.jsonl",
    "final-exec.jsonl",
    "devices.jsonl",
    "edges.jsonl",
    "choices.jsonl",
    "commands.jsonl",
];

// The most bytes of a file of cases.
const CASES_LIMIT: usize = 16_777_216;

// How many cases a file has, and how many of them are not answered as they must be.
#[derive(Clone, Copy)]
struct Count {
    all: usize,
    differ: usize,
}

fn main(rt: HostRuntime) -> Result<()> {
    let alloc = rt.alloc();
    let mut files = StdFiles::new(&rt);
    for name in NAMES {
        let Ok(text) = files.fetch(alloc, name, CASES_LIMIT) else {
            return Err(anyhow!("cannot read a file of cases"));
        };
        let count = run_cases(&rt, &text)?;
        println!(rt; "{name}: {} cases, {} differ", count.all, count.differ)?;
    }
    run_examples(&rt)
}

// Runs the case of each line, and prints the names of those that are not answered as they must be.
fn run_cases(rt: &HostRuntime, text: &[u8]) -> Result<Count> {
    let mut count = Count { all: 0, differ: 0 };
    for line in text.split(|byte| *byte == b'\n') {
        if line.is_empty() {
            continue;
        }
        let case = Value::from_slice(rt.alloc(), line)?;
        count.all = count.all.saturating_add(1);
        if !is_answered(rt.alloc(), &case)? {
            count.differ = count.differ.saturating_add(1);
            println!(rt; "{}", name_of(&case)?)?;
        }
    }
    Ok(count)
}
