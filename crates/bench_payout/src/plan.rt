// A plan, printed.
use crate::words::Asked;
use dispenser_frame_rules::Command;
use payout::{NoPlan, Plan};
use sheet::{print_form, print_text};
use std::io;
use std::io::Write;

// The plan that words ask for.
pub(crate) fn print<W: Write>(out: &mut W, asked: &Asked, gap: &[u8]) -> io::Result<()> {
    let n = asked.cassettes();
    let amount = asked.amount;
    print_plan(
        out,
        payout::find(&asked.values[..n], &asked.stocks[..n], amount),
        gap,
        amount == 0,
    )
}

fn print_plan<W: Write>(
    out: &mut W,
    plan: Result<Plan, NoPlan>,
    gap: &[u8],
    none: bool,
) -> io::Result<()> {
    match plan {
        Ok(Plan::Two { first, second }) => {
            print_form(out, b"take # #", &[first, second])?;
            print_text(out, gap)?;
            print_command(out, payout_command::command_for(first, second))
        }
        Ok(
            Plan::Four {
                first,
                second,
                third,
                fourth,
            },
        ) => {
            print_form(out, b"take # # # #", &[first, second, third, fourth])?;
            if none {
                print_text(out, gap)?;
                print_text(out, b"nothing to send")?;
            }
            print_text(out, b"\n")
        }
        Err(why) => print_form(out, b"refused #\n", &[why.number() as u32]),
    }
}

fn print_command<W: Write>(out: &mut W, command: Option<Command>) -> io::Result<()> {
    match command {
        None => print_text(out, b"nothing to send\n"),
        Some(c) => print_form(out, b"command $ # #\n", &[c.code as u32, c.upper, c.lower]),
    }
}
