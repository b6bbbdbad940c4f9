// The turns of a call, when all files are there.
ghost use Rattle.std.specs.Prelude.{◌≡◌, ◌≤◌, [], All, None, true, length, IfOk, IsTrue};
ghost use Rattle.std.specs.List.{list_any};
ghost use Rattle.alma_base.specs.Limits.{input_limit};
ghost use Rattle.alma_code.specs.Reads.{code_reads};
ghost use Rattle.alma_io.specs.Sides.{FilesSide};
ghost use Rattle.alma_plan.specs.Course.{Follows, Goes};
ghost use Rattle.alma_plan.specs.Plan.{Reads, prints, IsDue, plain};
ghost use Rattle.alma_plan.specs.Refusals.{end_by, stop_end};
ghost use Rattle.alma_pool.specs.Due.{program, bad_turn_behind, play_files_plan, open_objects, play_plan, play_on_plan, pool_text, turns_in, turns_limit};
ghost use Rattle.alma_pool.specs.Ends.{pool_end};
ghost use Rattle.alma_pool.specs.Inner.{players_at_start, all_bytes, codes_of, shown_text};
ghost use Rattle.alma_pool.specs.Pool.{after_turns};

use crate::open::{any_reads, open_all};
use crate::pool::Pool;
use crate::show::show_all;
use crate::stop::PoolStop;
use crate::turns::{bad_turn, play_all};
use alma_base::{INPUT_LIMIT, NoMemory};
use alma_io::{Sink, Source, read_all};
use alma_plan::Stop;
use alma_verify::Verified;
use std::alloc::Global;

// A pool of these codes, each at its start, on one input of at most 16,777,216 bytes.
fn gather<'b, 'i>(
    alloc: Global,
    verified: &[Verified<'b>],
    input: &'i [u8],
) -> Result<Pool<'b, 'i>, NoMemory>
    requires { length input.now ≤ input_limit }
    ensures { IfOk result (λ pool. pool ≡ record {
      programs = players_at_start (codes_of verified.now) input.now;
      whole = true;
    }) }
{
    let mut pool = Pool::new(alloc);
    for code in verified {
        pool.add(*code, input)?;
    }
    Ok(pool)
}

// Makes all turns by programs that made no step so far, and shows them.
fn play_in<O: Sink>(pool: &mut Pool<'_, '_>, turns: &[u8], out: &mut O) -> Result<(), Stop>
    requires whole { IsTrue pool.old.whole }
    requires fresh { All (λ p. p.state.steps ≡ 0) pool.old.programs }
    requires good { bad_turn_behind (length pool.old.programs) 0 turns.now ≡ None }
    requires short { length turns.now ≤ turns_limit }
    ensures { Goes program (IsDue (prints (shown_text 0
        (after_turns pool.old (turns_in turns.now)).programs))) (O.side out.old) (O.side out.new)
        (end_by (stop_end program) result) }
{
    play_all(pool, turns)?;
    show_all(pool, out).map_err(|_| Stop::Write)
}

// Makes all turns by these codes on an input, and shows them.
fn play_on<O: Sink>(
    alloc: Global,
    verified: &[Verified<'_>],
    turns: &[u8],
    input: &[u8],
    out: &mut O,
) -> Result<(), Stop>
    requires good { bad_turn_behind (length verified.now) 0 turns.now ≡ None }
    requires short { length turns.now ≤ turns_limit }
    requires lawful { length input.now ≤ input_limit }
    ensures { Goes program (IsDue (prints (pool_text 0 (codes_of verified.now) input.now
        (turns_in turns.now)))) (O.side out.old) (O.side out.new)
        (end_by (stop_end program) result) }
{
    let mut pool = gather(alloc, verified, input)?;
    play_in(&mut pool, turns, out)
}

// Reads the whole input, makes all turns on it, and shows the programs.
fn play_reading<I: Source, O: Sink>(
    alloc: Global,
    verified: &[Verified<'_>],
    turns: &[u8],
    input: &mut I,
    out: &mut O,
) -> Result<(), Stop>
    requires good { bad_turn_behind (length verified.now) 0 turns.now ≡ None }
    requires short { length turns.now ≤ turns_limit }
    ensures { (files : FilesSide) → Follows plain program
        (Reads (λ bytes. prints (pool_text 0 (codes_of verified.now) bytes (turns_in turns.now))))
        files files (I.side input.old) (I.side input.new) (O.side out.old) (O.side out.new)
        (end_by (stop_end program) result) }
{
    let bytes = read_all(alloc, input, INPUT_LIMIT)?;
    play_on(alloc, verified, turns, &bytes, out)
}

// Makes all turns, and shows the programs. The input is read where one of the codes reads.
fn play<I: Source, O: Sink>(
    alloc: Global,
    verified: &[Verified<'_>],
    turns: &[u8],
    input: &mut I,
    out: &mut O,
) -> Result<(), Stop>
    requires good { bad_turn_behind (length verified.now) 0 turns.now ≡ None }
    requires short { length turns.now ≤ turns_limit }
    ensures { (files : FilesSide) → Follows plain program
        (play_on_plan (list_any code_reads (codes_of verified.now)) (codes_of verified.now)
        (turns_in turns.now)) files files (I.side input.old) (I.side input.new) (O.side out.old)
        (O.side out.new) (end_by (stop_end program) result) }
{
    if any_reads(verified) {
        play_reading(alloc, verified, turns, input, out)
    } else {
        play_on(alloc, verified, turns, b"", out)
    }
}

// Opens the objects, makes all turns, and shows the programs.
fn play_objects<I: Source, O: Sink>(
    alloc: Global,
    turns: &[u8],
    objects: &[Vec<u8>],
    input: &mut I,
    out: &mut O,
) -> Result<(), PoolStop>
    requires good { bad_turn_behind (length objects.now) 0 turns.now ≡ None }
    requires short { length turns.now ≤ turns_limit }
    ensures { (files : FilesSide) → Follows plain program
        (play_plan (open_objects [] (all_bytes objects.now)) (turns_in turns.now)) files files
        (I.side input.old) (I.side input.new) (O.side out.old) (O.side out.new)
        (end_by pool_end result) }
{
    let verified = open_all(alloc, objects)?;
    play(alloc, &verified, turns, input, out)?;
    Ok(())
}

/// All files are there: the turns are made, unless one of them may not stand there, or an object is
/// refused.
pub fn play_files<I: Source, O: Sink>(
    alloc: Global,
    turns: &[u8],
    objects: &[Vec<u8>],
    input: &mut I,
    out: &mut O,
) -> Result<(), PoolStop>
    requires { length turns.now ≤ turns_limit }
    ensures { (files : FilesSide) → Follows plain program
        (play_files_plan turns.now (all_bytes objects.now)) files files
        (I.side input.old) (I.side input.new) (O.side out.old) (O.side out.new)
        (end_by pool_end result) }
{
    match bad_turn(objects.len(), turns) {
        Some(turn) => Err(PoolStop::BadTurn(turn)),
        None => play_objects(alloc, turns, objects, input, out),
    }
}
