//! What holds of command lines.
ghost use Rattle.std.specs.Prelude.{ℕ, List};
ghost use Rattle.command_words.specs.CommandLine.{IsCommandLine, IsSame};
ghost use Rattle.command_words.specs.declared.command.Command.{Command};

/// Words ask for one command at most.
pub fn one_command()
    ensures { (words : List (List ℕ)) (c d : Command) → IsCommandLine words c → IsCommandLine words d → IsSame c d }
{}
