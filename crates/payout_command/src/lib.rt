// The command that a plan for the two-cassette unit becomes. Document 02, Q-10.
#![tactic(auto)]

ghost use Rattle.std.specs.Prelude.{◌≡◌};
ghost use Rattle.payout_command.specs.Command.{command_for};

use dispenser_frame_rules::{Command, PAY_BOTH, PAY_LOWER, PAY_UPPER};

// The command for the counts of a plan, where it pays notes at all: the first cassette is the upper one.
#[tactic(auto, using(refusals::proofs::Rules::tests), unfolding(crate::specs::Command::command_for))]
pub fn command_for(upper: u32, lower: u32) -> Option<Command>
    ensures { result ≡ command_for upper lower }
{
    let code = match (upper, lower) {
        (0, 0) => return None,
        (_, 0) => PAY_UPPER,
        (0, _) => PAY_LOWER,
        _ => PAY_BOTH,
    };
    Some(Command { code, upper, lower })
}
