// The pool.
ghost use Rattle.std.specs.Prelude.{◌≡◌, ◌<◌, ◌≤◌, ◌+◌, [], ◌∷◌, ◌++◌, true, false, length, map, IfOk, OnOk, OnErr, IsTrue};
ghost use Rattle.alma_base.specs.Limits.{input_limit};
ghost use Rattle.alma_driver_words.specs.Words.{greatest_steps};
ghost use Rattle.alma_verify.specs.Verified.{code_of_verified};
ghost use Rattle.alma_pool.specs.Pool.{OthersStay, ended_in, player_at_start, take_turn, program_at, after_turn};
ghost use Rattle.alma_pool.specs.Ready.{IsReady, played_of};

use alma_base::NoMemory;
use alma_code::{End, Step};
use alma_machine::Machine;
use alma_verify::Verified;
use std::alloc::Global;
use std::marker::Model;

/// One program: its machine, what it has printed, and its end, where it has one.
#[derive(Drop)]
struct Player<'b, 'i> {
    machine: Machine<'b, 'i>,
    output: Vec<u8>,
    end: Option<End>,
}

// Gives a program one step, and nothing where it has ended.
fn play(player: &mut Player<'_, '_>) -> Result<(), NoMemory>
    requires ready { IsReady player.old.machine player.old.end }
    requires few { player.old.machine.state.steps < greatest_steps }
    ensures turn { OnOk result (played_of player.new ≡ take_turn (played_of player.old)) }
    ensures counted { OnOk result (player.new.machine.state.steps
        ≤ player.old.machine.state.steps + 1) }
    ensures ready { OnOk result (IsReady player.new.machine player.new.end) }
{
    if player.end.is_some() {
        return Ok(());
    }
    let step = player.machine.step()?;
    player.output.extend_from_slice(player.machine.printed())?;
    if let Step::Done(end) = step {
        player.end = Some(end);
    }
    Ok(())
}

/// Programs that take turns, each with its own code, input, state and output.
#[derive(Drop)]
pub struct Pool<'b, 'i> {
    alloc: Global,
    players: Vec<Player<'b, 'i>>,
    whole: bool,
}

impl<'b, 'i> Model for Pool<'b, 'i> {
    ghost use Rattle.std.specs.Prelude.{◌≡◌, true, All, map};
    ghost use Rattle.alma_pool.specs.Pool.{PoolView};

    ghost Value = { PoolView };

    ghost use Rattle.alma_pool.specs.Ready.{IsReady, played_of};

    ghost view = { λ p. record {
      programs = map played_of p.players.items;
      whole = p.whole;
    } };

    ghost invariant = { λ p. p.whole ≡ true → All (λ q. IsReady q.machine q.end) p.players.items };
}

impl<'b, 'i> Pool<'b, 'i> {
    /// A pool without programs.
    pub fn new(alloc: Global) -> Pool<'b, 'i>
        ensures { result ≡ record { programs = []; whole = true } }
    {
        Pool {
            alloc,
            players: Vec::new(alloc),
            whole: true,
        }
    }

    /// Adds a program, and answers its number. Where memory is wanted, the pool is as before. The
    /// input has at most 16,777,216 bytes.
    pub fn add(&mut self, code: Verified<'b>, input: &'i [u8]) -> Result<usize, NoMemory>
        requires lawful { length input.now ≤ input_limit }
        ensures number { IfOk result (λ k. k ≡ length self.old.programs) }
        ensures added { OnOk result (self.new ≡ record self.old {
          programs = self.old.programs
              ++ player_at_start (code_of_verified code.entry) input.now ∷ [];
        }) }
        ensures refused { OnErr result (self.new ≡ self.old) }
    {
        let number = self.players.len();
        let machine = Machine::new(self.alloc, code, input)?;
        self.players.push(Player {
            machine,
            output: Vec::new(self.alloc),
            end: None,
        })?;
        Ok(number)
    }

    /// How many programs there are.
    pub fn count(&self) -> usize
        ensures { result ≡ length self.now.programs }
    {
        self.players.len()
    }

    /// Whether no turn was refused.
    pub fn is_whole(&self) -> bool
        ensures { result ≡ self.now.whole }
    {
        self.whole
    }

    /// One step of the program of a number, and nothing where that has ended. After a refused turn
    /// the pool is not whole, and that program may stand anywhere.
    pub fn turn(&mut self, k: usize) -> Result<(), NoMemory>
        requires whole { IsTrue self.old.whole }
        requires there { k < length self.old.programs }
        requires few { (program_at self.old k).state.steps < greatest_steps }
        ensures turn { OnOk result (self.new ≡ after_turn self.old k) }
        ensures counted { OnOk result ((program_at self.new k).state.steps
            ≤ (program_at self.old k).state.steps + 1) }
        ensures refused { OnErr result (self.new.whole ≡ false) }
        ensures others { OnErr result (OthersStay self.old self.new k) }
    {
        let player = &mut self.players[k];
        if play(player).is_err() {
            self.whole = false;
            return Err(NoMemory);
        }
        Ok(())
    }

    /// How many steps of a program were made.
    pub fn steps(&self, k: usize) -> u64
        requires { k < length self.now.programs }
        ensures { result ≡ (program_at self.now k).state.steps }
    {
        self.players[k].machine.steps()
    }

    /// What a program has printed.
    pub fn output(&self, k: usize) -> &[u8]
        requires { k < length self.now.programs }
        ensures { result.now ≡ (program_at self.now k).output }
    {
        self.players[k].output.as_slice()
    }

    /// How a program ended, where it has.
    pub fn end(&self, k: usize) -> Option<End>
        requires there { k < length self.now.programs }
        requires whole { IsTrue self.now.whole }
        ensures { result ≡ ended_in (program_at self.now k).state.mode }
    {
        self.players[k].end
    }
}
