#![tactic(auto)]

// The program: its words, the file system, and the standard streams.

use alma_all::all;
use alma_io::{StdFiles, StdSink, StdSource, all_words};
use alma_plan::{Refusal, Stop, refuse};
use std::process::ExitCode;

fn main(rt: HostRuntime) -> ExitCode {
    let mut err = StdSink::new(rt.stderr());
    let Ok(words) = all_words(rt.alloc(), &rt) else {
        let stop = Refusal::Stopped(Stop::Memory);
        return ExitCode::from(refuse(&mut err, b"alma_all", stop).0);
    };
    let mut files = StdFiles::new(&rt);
    let mut input = StdSource::new(rt.stdin());
    let mut out = StdSink::new(rt.stdout());
    let status = all(
        rt.alloc(),
        &words,
        &mut files,
        &mut input,
        &mut out,
        &mut err,
    );
    ExitCode::from(status.0)
}
