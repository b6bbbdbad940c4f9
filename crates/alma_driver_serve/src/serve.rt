// From the words to an end.
ghost use Rattle.std.specs.Prelude.{◌≡◌, ◌≤◌, Some, length};
ghost use Rattle.alma_driver_words.specs.Words.{request_of, texts};
ghost use Rattle.alma_driver_words.specs.Limits.{IsWithinLimits};
ghost use Rattle.alma_driver_outcome.specs.Words.{limit_of, read_by, IsReadBy};
ghost use Rattle.alma_driver_outcome.specs.Outcome.{FileOutcome, RequestOutcome, Outcome, AskToRead};
ghost use Rattle.alma_driver_outcome.specs.Parts.{NoFile, Serves};

use crate::compile::compile_source;
use crate::exec::exec_object;
use crate::list::list_object;
use crate::load::check_only;
use crate::request::{file_read, read_limit};
use crate::sample::sample;
use crate::source::{run_source, trace_source};
use alma_driver_outcome::{End, Showing};
use alma_driver_words::{Request, read_words};
use alma_io::{Files, Sink, Source};
use alma_plan::Stop;
use std::alloc::Global;

// Does what a request asks, with the bytes of the file that it reads.
fn serve_file<F: Files, I: Source, O: Sink>(
    alloc: Global,
    request: &Request<'_>,
    bytes: &[u8],
    files: &mut F,
    input: &mut I,
    out: &mut O,
) -> End
    requires within { IsWithinLimits (request_of request.now) }
    requires short { length bytes.now ≤ limit_of (request_of request.now) }
    ensures { Serves NoFile
        (FileOutcome (I.side input.old).left (request_of request.now) bytes.now)
        (F.side files.old) (F.side files.new) (I.side input.old) (I.side input.new) (O.side out.old)
        (O.side out.new) result }
{
    match request {
        Request::Check(_) => check_only(alloc, bytes),
        Request::Compile(_, object) => compile_source(alloc, bytes, object, files),
        Request::List(_) => list_object(alloc, bytes, out),
        Request::Run(_, steps, stats) => {
            run_source(alloc, bytes, input, *steps, Showing::Prints(*stats), out)
        }
        Request::Exec(_, steps, stats) => exec_object(alloc, bytes, input, *steps, *stats, out),
        Request::Trace(_, steps, names) => trace_source(alloc, bytes, input, *steps, names, out),
        Request::Sample(lines) => sample(alloc, *lines, out),
    }
}

// Fetches the file that a request reads, and does what it asks.
fn serve_named<F: Files, I: Source, O: Sink>(
    alloc: Global,
    request: &Request<'_>,
    file: &str,
    files: &mut F,
    input: &mut I,
    out: &mut O,
) -> End
    requires within { IsWithinLimits (request_of request.now) }
    requires read { read_by (request_of request.now) ≡ Some file.now }
    ensures { Serves (IsReadBy (request_of request.now))
        (RequestOutcome (F.side files.old).told (I.side input.old).left (request_of request.now))
        (F.side files.old) (F.side files.new) (I.side input.old) (I.side input.new) (O.side out.old)
        (O.side out.new) result }
{
    match files.fetch(alloc, file, read_limit(request)) {
        Ok(bytes) => serve_file(alloc, request, &bytes, files, input, out),
        Err(fault) => End::from(Stop::from(fault)),
    }
}

// Does what a request asks. A sample reads no file.
fn serve<F: Files, I: Source, O: Sink>(
    alloc: Global,
    request: &Request<'_>,
    files: &mut F,
    input: &mut I,
    out: &mut O,
) -> End
    requires { IsWithinLimits (request_of request.now) }
    ensures { Serves (IsReadBy (request_of request.now))
        (RequestOutcome (F.side files.old).told (I.side input.old).left (request_of request.now))
        (F.side files.old) (F.side files.new) (I.side input.old) (I.side input.new) (O.side out.old)
        (O.side out.new) result }
{
    match file_read(request) {
        Some(file) => serve_named(alloc, request, file, files, input, out),
        None => serve_file(alloc, request, b"", files, input, out),
    }
}

/// Does what the words ask: the end that it comes to. Where nothing failed, all its bytes are on
/// `out`.
pub fn perform<F: Files, I: Source, O: Sink>(
    alloc: Global,
    words: &[String],
    files: &mut F,
    input: &mut I,
    out: &mut O,
) -> End
    ensures { Serves (AskToRead (texts words.now))
        (Outcome (texts words.now) (F.side files.old).told (I.side input.old).left)
        (F.side files.old) (F.side files.new) (I.side input.old) (I.side input.new) (O.side out.old)
        (O.side out.new) result }
{
    match read_words(alloc, words) {
        Ok(request) => serve(alloc, &request, files, input, out),
        Err(error) => End::from(error),
    }
}
