// The file of turns.
ghost use Rattle.std.specs.Prelude.{◌≡◌, ◌≤◌, ◌<◌, ◌+◌, ℕ, All, None, true, length, OnOk, IsTrue};
ghost use Rattle.alma_driver_words.specs.Words.{greatest_steps};
ghost use Rattle.alma_pool.specs.Due.{bad_turn_behind, is_turn as is_turn_of, turn_in, turns_in, turns_limit};
ghost use Rattle.alma_pool.specs.Pool.{after_turns};

use crate::pool::Pool;
use alma_base::NoMemory;

/// The greatest number of bytes of a file of turns.
pub const TURNS_LIMIT: usize = 16_777_216;

// A byte that may stand in a file of turns of so many programs.
fn is_turn(programs: usize, byte: u8) -> bool
    ensures { result ≡ is_turn_of programs byte }
{
    byte == b'\n' || (byte >= b'a' && usize::from(byte - b'a') < programs)
}

/// The first byte, from 1, that may not stand in a file of turns of so many programs.
pub fn bad_turn(programs: usize, turns: &[u8]) -> Option<usize>
    ensures { result ≡ bad_turn_behind programs 0 turns.now }
{
    for (at, byte) in turns.iter().enumerate() {
        if !is_turn(programs, *byte) {
            return Some(at + 1);
        }
    }
    None
}

// Makes the turn of a byte; that of a line feed is none. It makes one step at most.
fn take_turn(pool: &mut Pool<'_, '_>, byte: u8) -> Result<(), NoMemory>
    requires whole { IsTrue pool.old.whole }
    requires good { is_turn_of (length pool.old.programs) byte ≡ true }
    requires few { All (λ p. p.state.steps < greatest_steps) pool.old.programs }
    ensures turn { OnOk result (pool.new ≡ after_turns pool.old (turn_in byte)) }
    ensures few { OnOk result ((most : ℕ) → All (λ p. p.state.steps ≤ most) pool.old.programs
        → All (λ p. p.state.steps ≤ most + 1) pool.new.programs) }
{
    if byte == b'\n' {
        return Ok(());
    }
    let letter = byte - b'a';
    pool.turn(usize::from(letter))
}

/// Makes all turns of a file, none of which is bad, by programs that made no step so far.
pub fn play_all(pool: &mut Pool<'_, '_>, turns: &[u8]) -> Result<(), NoMemory>
    requires whole { IsTrue pool.old.whole }
    requires fresh { All (λ p. p.state.steps ≡ 0) pool.old.programs }
    requires good { bad_turn_behind (length pool.old.programs) 0 turns.now ≡ None }
    requires short { length turns.now ≤ turns_limit }
    ensures { OnOk result (pool.new ≡ after_turns pool.old (turns_in turns.now)) }
{
    for byte in turns {
        take_turn(pool, *byte)?;
    }
    Ok(())
}
