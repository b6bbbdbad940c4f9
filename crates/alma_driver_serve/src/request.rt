// What requests read.
ghost use Rattle.std.specs.Prelude.{◌≡◌, None, Some, MatchOption};
ghost use Rattle.alma_driver_words.specs.Words.{request_of};
ghost use Rattle.alma_driver_outcome.specs.Words.{limit_of, read_by};

use alma_base::{OBJECT_LIMIT, SOURCE_LIMIT};
use alma_driver_words::Request;

/// The name of the file that a request reads. A sample reads none.
pub fn file_read<'w>(request: &Request<'w>) -> Option<&'w str>
    ensures { MatchOption result (read_by (request_of request.now) ≡ None)
        (λ name. read_by (request_of request.now) ≡ Some name.now) }
{
    match request {
        Request::Check(file) => Some(*file),
        Request::Compile(file, _) => Some(*file),
        Request::List(object) => Some(*object),
        Request::Run(file, _, _) => Some(*file),
        Request::Exec(object, _, _) => Some(*object),
        Request::Trace(file, _, _) => Some(*file),
        Request::Sample(_) => None,
    }
}

/// The greatest number of bytes of that file.
pub fn read_limit(request: &Request<'_>) -> usize
    ensures { result ≡ limit_of (request_of request.now) }
{
    match request {
        Request::List(_) | Request::Exec(_, _, _) => OBJECT_LIMIT,
        _ => SOURCE_LIMIT,
    }
}
