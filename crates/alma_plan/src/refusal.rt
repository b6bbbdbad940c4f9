// Why calls are refused, in the words that all programs share.
ghost use Rattle.std.specs.Prelude.{◌≡◌, ◌++◌, codes};
ghost use Rattle.alma_driver_words.specs.Exit as exit;
ghost use Rattle.alma_plan.specs.Plan.{tells};
ghost use Rattle.alma_plan.specs.Course.{Reports};
ghost use Rattle.alma_plan.specs.Refusals.{with_number, object_fault_text, rule_fault_text, refusal_status, refusal_end};

use crate::stop::Stop;
use crate::writing::{report, tell_line, tell_number};
use alma_base::Status;
use alma_code::VerifyFault;
use alma_driver_words::exit;
use alma_io::Sink;
use alma_object_format::ObjectFault;
use itoa::Buffer;

/// Why a call is refused, where every program may refuse it so.
#[derive(Clone, Copy)]
pub enum Refusal {
    /// The first word, from 1, that cannot stand where it is, or one more than there are.
    BadWord(usize),
    /// The bytes are no object: their fault.
    BadObject(ObjectFault),
    /// The code of an object is not sound: the first rule that it breaks, and where.
    BadCode(VerifyFault),
    /// What stops any call.
    Stopped(Stop),
}

impl Refusal {
    /// The exit status.
    pub fn status(self) -> u8
        ensures { result ≡ refusal_status self }
    {
        match self {
            Refusal::BadWord(_) => exit::BAD_WORD,
            Refusal::BadObject(_) | Refusal::BadCode(_) => exit::BAD_OBJECT,
            Refusal::Stopped(stop) => stop.status(),
        }
    }
}

impl From<Stop> for Refusal {
    ghost use Rattle.alma_plan.specs.declared.refusal.Refusal.{Refusal};

    ghost from_gives = { λ stop refusal. refusal ≡ Refusal.Stopped stop };

    fn from(stop: Stop) -> Self {
        Refusal::Stopped(stop)
    }
}

// Says that bytes are no object, by the name of the fault and its number, where it has one.
fn refuse_named<'t, E: Sink>(
    err: &mut E,
    program: &'t [u8],
    name: &'t [u8],
    number: Option<usize>,
) -> Status
    ensures { Reports (tells program.now exit.bad_object
        (codes "object " ++ with_number name.now number))
        (E.side err.old) (E.side err.new) result.0 }
{
    let front = b": object ".as_slice();
    let end = b"\n".as_slice();
    match number {
        None => report(err, exit::BAD_OBJECT, &[program, front, name, end]),
        Some(number) => {
            let mut digits = Buffer::new();
            let number = digits.format(number).as_bytes();
            report(
                err,
                exit::BAD_OBJECT,
                &[program, front, name, b" ".as_slice(), number, end],
            )
        }
    }
}

// Says that bytes are no object.
fn refuse_object<E: Sink>(err: &mut E, program: &[u8], fault: ObjectFault) -> Status
    ensures { Reports (tells program.now exit.bad_object (object_fault_text fault)) (E.side err.old)
        (E.side err.new) result.0 }
{
    refuse_named(err, program, fault.name(), fault.number())
}

// Says that code is not sound.
fn refuse_code<E: Sink>(err: &mut E, program: &[u8], fault: VerifyFault) -> Status
    ensures { Reports (tells program.now exit.bad_object (rule_fault_text fault)) (E.side err.old)
        (E.side err.new) result.0 }
{
    let mut rule_digits = Buffer::new();
    let mut at_digits = Buffer::new();
    let front = b": object Rule ".as_slice();
    let rule = rule_digits.format(fault.rule).as_bytes();
    let middle = b" ".as_slice();
    let at = at_digits.format(fault.at).as_bytes();
    let end = b"\n".as_slice();
    report(
        err,
        exit::BAD_OBJECT,
        &[program, front, rule, middle, at, end],
    )
}

/// Says on err, in the name of a program, why a call is refused: the status of that, or that of a
/// write fault where err fails.
pub fn refuse<E: Sink>(err: &mut E, program: &[u8], refusal: Refusal) -> Status
    ensures { Reports (refusal_end program.now refusal) (E.side err.old) (E.side err.new) result.0 }
{
    match refusal {
        Refusal::BadWord(word) => {
            tell_number(err, program, exit::BAD_WORD, b"bad word ", word as u64)
        }
        Refusal::BadObject(fault) => refuse_object(err, program, fault),
        Refusal::BadCode(fault) => refuse_code(err, program, fault),
        Refusal::Stopped(stop) => tell_line(err, program, stop.status(), stop.text()),
    }
}
