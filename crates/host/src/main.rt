// The host at the desk, a filter. Events come on standard input as records; each is entered by `live`, its bytes are written to the recording, and only then standard output says which bytes go
// to which line, and what happened. The program needs no clock, no poll and no terminal: whoever makes the events has those. It ends with its input.
//
//     host RECORDING                 a new recording: the file must not exist
//     host RECORDING --switched-on   the same, after the unit was switched off and on: payouts are taken at once
//     host RECORDING --resume        goes on with a recording
#![tactic(auto)]

mod begin;
mod lines;

// The most bytes of a path.
const PATH: usize = 4_096;

fn main(rt: HostRuntime) {
    let mut path = [0u8; PATH];
    match files::arg(&rt, 1, &mut path) {
        Ok(n) => {
            if n == 0 {
                lines::usage(rt);
                return;
            }
            begin::with(rt, &path[..n]);
        }
        Err(_) => lines::usage(rt),
    }
}
