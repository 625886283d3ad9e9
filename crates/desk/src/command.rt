ghost use Rattle.std.specs.Prelude.{◌≡◌};
ghost use Rattle.drawing.specs.Records.{said};
ghost use Rattle.desk.specs.Commands.{command_of, allowed, call_of};

use drawing::Record;
use performing::Call;
use refusal::Fault;

// A command that the program carries out.
#[derive(Clone, Copy)]
pub enum Command {
    Limit { reach: u16, limit: u32 },
    Settle { budget: u32 },
    Drain,
    Tally,
    Bottleneck,
}

impl TryFrom<Record<'_>> for Command {
    type Error = Fault;

    ghost try_from_gives = { λ item given. given ≡ allowed (command_of (said item)) };

    // The command that a record gives; the letter of a record that gives none is a byte that is not allowed.
    fn try_from(item: Record<'_>) -> Result<Command, Fault> {
        match item {
            Record::Limit { reach, limit } => Ok(Command::Limit { reach, limit }),
            Record::Settle { budget } => Ok(Command::Settle { budget }),
            Record::Drain => Ok(Command::Drain),
            Record::Tally => Ok(Command::Tally),
            Record::Bottleneck => Ok(Command::Bottleneck),
            _ => Err(Fault::ByteNotAllowed),
        }
    }
}

impl From<Command> for Call {
    ghost from_gives = { λ command call. call ≡ call_of command };

    // The call that carries out a command.
    fn from(command: Command) -> Call {
        match command {
            Command::Limit { reach, limit } => Call::Limit {
                reach: usize::from(reach),
                limit,
            },
            Command::Settle { budget } => Call::Settle { budget },
            Command::Drain => Call::Drain,
            Command::Tally => Call::Tally,
            Command::Bottleneck => Call::Bottleneck,
        }
    }
}
