// The word in front of a request.
ghost use Rattle.std.specs.Prelude.{◌≡◌, ◌≢◌, MatchOption};
ghost use Rattle.alma_driver_words.specs.declared.command.Command.{Command};
ghost use Rattle.alma_driver_words.specs.Inner.Commands.{word_of};

/// What a request begins with.
#[derive(Clone, Copy)]
pub enum Command {
    Check,
    Compile,
    List,
    Run,
    Exec,
    Trace,
    Sample,
}

/// The command that a word is.
pub fn command_of(word: &str) -> Option<Command>
    ensures { MatchOption result ((command : Command) → word.now ≢ word_of command)
        (λ command. word.now ≡ word_of command) }
{
    match word {
        "check" => Some(Command::Check),
        "compile" => Some(Command::Compile),
        "list" => Some(Command::List),
        "run" => Some(Command::Run),
        "exec" => Some(Command::Exec),
        "trace" => Some(Command::Trace),
        "sample" => Some(Command::Sample),
        _ => None,
    }
}
