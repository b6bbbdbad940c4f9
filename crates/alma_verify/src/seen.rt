// The calls whose arguments were found to fit.
ghost use Rattle.std.specs.Prelude.{◌≡◌, ◌<◌, true, length};
ghost use Rattle.alma_code.specs.Plain.{PlainCode, head_at};
ghost use Rattle.alma_code.specs.Rules.{IsTable, fit_arguments};
ghost use Rattle.alma_verify.specs.Seen.{AreFit, IsFit, is_same as is_same_spec};

use crate::alike::are_alike;
use crate::arguments::is_free;
use crate::reader::CodeReader;

/// A call by its caller, its callee and its first argument slot. Callee 0, which no call may name,
/// stands for none.
#[derive(Clone, Copy)]
pub struct SeenCall {
    pub caller: u32,
    pub callee: u32,
    pub first: u32,
}

// So many arguments are sooner looked at than compared.
const FEW_ARGUMENTS: u32 = 64;

// How many calls each of the two tables remembers.
const SEEN_LIMIT: usize = 256;

const NO_CALL: SeenCall = SeenCall {
    caller: 0,
    callee: 0,
    first: 0,
};

/// Calls whose arguments were found to fit. In `calls` each has the place that its callee and first
/// slot give, where the last one stays, so a call that stands in a code many times is looked at
/// once. In `latest` its callee alone gives the place, and other calls of that callee are compared
/// with it. No memory is asked for.
#[derive(Drop)]
pub struct SeenCalls {
    calls: [SeenCall; SEEN_LIMIT],
    latest: [SeenCall; SEEN_LIMIT],
}

// Whether this is the call.
fn is_same(seen: SeenCall, caller: u32, callee: u32, first: u32) -> bool
    ensures { result ≡ is_same_spec seen caller callee first }
{
    seen.caller == caller && seen.callee == callee && seen.first == first
}

// Where a call is remembered.
fn place_of(call: SeenCall) -> usize
    ensures { result < SEEN_LIMIT }
{
    (call.callee as usize + call.first as usize) % SEEN_LIMIT
}

// Where the last call of a routine is remembered.
fn latest_place(callee: u32) -> usize
    ensures { result < SEEN_LIMIT }
{
    callee as usize % SEEN_LIMIT
}

impl SeenCalls {
    /// Where no call was found to fit yet, with which the check of a code begins.
    pub fn none() -> SeenCalls
        ensures { (code : PlainCode) → AreFit code result }
    {
        SeenCalls {
            calls: [NO_CALL; SEEN_LIMIT],
            latest: [NO_CALL; SEEN_LIMIT],
        }
    }

    // Whether this very call was found to fit.
    fn was_seen(&self, call: SeenCall) -> bool
        ensures { (code : PlainCode) → AreFit code self.now → result ≡ true → IsFit code call }
    {
        is_same(
            self.calls[place_of(call)],
            call.caller,
            call.callee,
            call.first,
        )
    }

    // Whether the arguments are more than few, and of the same kinds as those of the last call of
    // the callee that fit.
    fn fits_like_latest<R: CodeReader>(&self, reader: &R, call: SeenCall) -> bool
        requires caller { call.caller < length (R.code reader.now).routines }
        requires callee { call.callee < length (R.code reader.now).routines }
        requires some { 0 < call.callee }
        requires table { IsTable (R.code reader.now) }
        requires seen { AreFit (R.code reader.now) self.now }
        ensures { result ≡ true → IsFit (R.code reader.now) call }
    {
        let latest = self.latest[latest_place(call.callee)];
        let count = reader.param_count(call.callee);
        if latest.callee != call.callee || count <= FEW_ARGUMENTS {
            return false;
        }
        is_free(call.caller, call.first, 0) && are_alike(reader, latest, call, count)
    }

    // The call is remembered, and is the last one of its callee.
    fn remember(&mut self, call: SeenCall)
        ensures { (code : PlainCode) → AreFit code self.old → IsFit code call
            → AreFit code self.new }
    {
        self.calls[place_of(call)] = call;
        self.latest[latest_place(call.callee)] = call;
    }

    /// Whether the slots of the caller from first on can be the arguments of the callee.
    pub fn fit_all<R: CodeReader>(
        &mut self,
        reader: &R,
        caller: u32,
        callee: u32,
        first: u32,
    ) -> bool
        requires caller { caller < length (R.code reader.now).routines }
        requires callee { callee < length (R.code reader.now).routines }
        requires some { 0 < callee }
        requires table { IsTable (R.code reader.now) }
        requires seen { AreFit (R.code reader.now) self.old }
        ensures fit { result ≡ fit_arguments (R.code reader.now) caller
            (head_at (R.code reader.now) callee).params first }
        ensures seen { AreFit (R.code reader.now) self.new }
    {
        let call = SeenCall {
            caller,
            callee,
            first,
        };
        if self.was_seen(call) {
            return true;
        }
        if !self.fits_like_latest(reader, call) && !reader.fit_all(caller, callee, first) {
            return false;
        }
        self.remember(call);
        true
    }
}
