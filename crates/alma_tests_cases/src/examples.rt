// The examples: each is run on the input that lies beside it, and what it prints is compared with
// what it must.
use crate::example_run::run_example;
use alma_io::{StdFiles, StdSink};
use anyhow::Result;

// The examples, which lie in the folder `examples`.
const NAMES: [&str; 34] = [
    "change",
    "collatz",
    "colours",
    "gcd",
    "hello",
    "knapsack",
    "knight",
    "lesson01",
    "lesson02",
    "lesson03",
    "lesson04",
    "lesson05",
    "lesson06",
    "lesson07",
    "lesson08",
    "lesson09",
    "lesson10",
    "lesson11",
    "lesson12",
    "lesson13",
    "magic",
    "money",
    "packing",
    "pair",
    "path",
    "pay",
    "queens",
    "river",
    "squares",
    "sudoku",
    "timetable",
    "words",
    "year",
    "zebra",
];

/// Runs each example, and prints its status and whether it printed what it must.
pub fn run_examples(rt: &HostRuntime) -> Result<()> {
    let mut files = StdFiles::new(rt);
    let mut err = StdSink::new(rt.stderr());
    for name in NAMES {
        let (status, same) = run_example(rt.alloc(), &mut files, &mut err, name)?;
        let verdict = if same {
            "as it must be"
        } else {
            "not as it must be"
        };
        println!(rt; "{name}.al: status {status}, output {verdict}")?;
    }
    Ok(())
}
