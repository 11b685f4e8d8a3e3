// The device: the wire and its account joined with the frames.
ghost use Rattle.std.specs.Prelude.{◌≡◌, ◌<◌, length, set, take};
ghost use Rattle.dispenser_frame_rules.specs.Command.{read_command};
ghost use Rattle.pretend_rules.specs.Device.{stepped, refused_step, step_after, byte_after, after, handed, send, acted, judge_step, byte_step, tick_step, tell_step, code_by, answer_by, device_byte, device_tick, device_tell};

use crate::{tally, wire};
use dispenser_frame::{code_of, read_command, write_answer};
use dispenser_frame_rules::{Answer, Command};
use pretend_rules::{Act, Device, Happening, Heard, Outcome, Reply, Step, Wire};
use refusals::{Declined, Done};
use xor_frame::Fault;

// A step that is done: so many bytes put, and what came of it.
fn done(wire: Wire, put: usize, what: Happening) -> Step
    ensures { result ≡ stepped wire put what }
{
    Step {
        wire,
        reply: Ok(Done { put, closing: what }),
    }
}

// A step that is declined: the wire stays as it was.
fn not_done(wire: Wire, why: Declined) -> Step
    ensures { result ≡ refused_step wire why }
{
    Step {
        wire,
        reply: Err(why),
    }
}

// Sends the answer's frame, and says how many bytes that put.
#[tactic(auto, unfolding(pretend_rules::specs::Device::send))]
fn send_answer(answer: Answer, room: &mut [u8]) -> usize
    ensures { handed result room.new ≡ send answer room.old }
{
    write_answer(answer, room).unwrap_or(0)
}

// Keeps a byte at its place of the gathering store.
fn keep(store: &mut [u8], at: usize, b: u8)
    ensures { store.new ≡ set store.old at b }
{
    if at < store.len() {
        store[at] = b;
    }
}

// One byte sent.
fn send_byte(room: &mut [u8], b: u8)
    requires { 0 < length room.old }
    ensures { room.new ≡ set room.old 0 b }
{
    room[0] = b;
}

// Does what the wire says.
fn act_on(wire: Wire, act: Act, answer: Answer, room: &mut [u8]) -> Step
    requires { 0 < length room.old }
    ensures { step_after result room.new ≡ acted act wire answer room.old }
{
    match act {
        Act::Nothing => done(wire, 0, Happening::Nothing),
        Act::Nak => {
            send_byte(room, 0x15);
            done(wire, 1, Happening::Nothing)
        }
        Act::Again => {
            let n = send_answer(answer, room);
            done(wire, n, Happening::Nothing)
        }
        Act::Finish => done(wire, 0, Happening::Ended),
    }
}

// What reading the gathered command finds; no more than the store holds.
fn gathered_command(store: &[u8], span: usize) -> Result<Command, Fault>
    ensures { result ≡ read_command (take span store.now) }
{
    read_command(&store[..span.min(store.len())])
}

// Judges the command, which is full: 06h, or 15h where it is bad or one too many.
#[tactic(auto, using(refusals::proofs::Rules::tests), unfolding(pretend_rules::specs::Device::judge_step))]
fn judge(wire: Wire, store: &[u8], room: &mut [u8]) -> Step
    requires { 0 < length room.old }
    ensures { step_after result room.new ≡ judge_step wire store.now room.old }
{
    match gathered_command(store, wire.span) {
        Ok(command) if wire.answered < Wire::COMMANDS => {
            send_byte(room, 0x06);
            done(
                wire::awaiting(wire.answered + 1),
                1,
                Happening::Taken {
                    code: command.code,
                    upper: command.upper,
                    lower: command.lower,
                },
            )
        }
        _ => {
            send_byte(room, 0x15);
            done(wire::idle(wire), 1, Happening::Nothing)
        }
    }
}

// A byte arrives.
#[tactic(auto, using(refusals::proofs::Rules::tests), unfolding(pretend_rules::specs::Device::byte_step, pretend_rules::specs::Device::byte_refusals))]
fn step_byte(wire: Wire, answer: Answer, store: &mut [u8; 10], b: u8, room: &mut [u8]) -> Step
    ensures { byte_after result store.new room.new ≡ byte_step wire answer store.old b room.old }
{
    if room.len() < Device::ROOM {
        return not_done(wire, Declined::Room);
    }
    let hearing = wire::heard(wire, b);
    let next = hearing.wire;
    match hearing.heard {
        Heard::Keep => {
            keep(store, wire.gathered, b);
            done(next, 0, Happening::Nothing)
        }
        Heard::Judge => {
            keep(store, wire.gathered, b);
            judge(next, store, room)
        }
        Heard::Do(act) => act_on(next, act, answer, room),
    }
}

// So many milliseconds pass.
#[tactic(auto, using(refusals::proofs::Rules::tests), unfolding(pretend_rules::specs::Device::tick_step, pretend_rules::specs::Device::tick_refusals))]
fn step_tick(wire: Wire, answer: Answer, ms: u32, room: &mut [u8]) -> Step
    ensures { step_after result room.new ≡ tick_step wire answer ms room.old }
{
    if room.len() < Device::ROOM {
        return not_done(wire, Declined::Room);
    }
    if !(1..=Device::TICK).contains(&ms) {
        return not_done(wire, Declined::Tick);
    }
    let turn = wire::passed(wire, ms as u64);
    act_on(turn.wire, turn.act, answer, room)
}

// The caller tells the answer's fields, to a command with that code.
#[tactic(auto, using(refusals::proofs::Rules::tests), unfolding(pretend_rules::specs::Device::tell_step, pretend_rules::specs::Device::tell_refusals))]
fn step_tell(wire: Wire, code: u8, answer: Answer, room: &mut [u8]) -> Step
    ensures { step_after result room.new ≡ tell_step wire code answer room.old }
{
    if room.len() < Device::ROOM {
        return not_done(wire, Declined::Room);
    }
    if !wire::is_awaiting(wire) {
        return not_done(wire, Declined::Unawaited);
    }
    if code_of(answer) != code {
        return not_done(wire, Declined::Range);
    }
    match write_answer(answer, room) {
        Ok(n) => done(wire::sent(wire, 1), n, Happening::Nothing),
        Err(_) => not_done(wire, Declined::Range),
    }
}

// The code of the command in hand, after what a byte answered.
fn code_by(code: u8, reply: Reply) -> u8
    ensures { result ≡ code_by code reply }
{
    match reply {
        Ok(
            Done {
                closing: Happening::Taken { code: new, .. },
                ..
            },
        ) => new,
        _ => code,
    }
}

// The answer in hand, after what a telling answered.
fn answer_by(old: Answer, new: Answer, reply: Reply) -> Answer
    ensures { result ≡ answer_by old new reply }
{
    match reply {
        Err(_) => old,
        Ok(_) => new,
    }
}

// A byte from the host.
#[tactic(auto, unfolding(pretend_rules::specs::Device::device_byte))]
pub fn byte(device: Device, b: u8, room: &mut [u8]) -> Outcome
    ensures { after result room.new ≡ device_byte device b room.old }
{
    let mut store = device.store;
    let step = step_byte(device.wire, device.answer, &mut store, b, room);
    Outcome {
        device: Device {
            wire: step.wire,
            code: code_by(device.code, step.reply),
            store,
            ..device
        },
        reply: step.reply,
    }
}

// So many milliseconds pass.
#[tactic(auto, unfolding(pretend_rules::specs::Device::device_tick))]
pub fn tick(device: Device, ms: u32, room: &mut [u8]) -> Outcome
    ensures { after result room.new ≡ device_tick device ms room.old }
{
    let step = step_tick(device.wire, device.answer, ms, room);
    Outcome {
        device: Device {
            wire: step.wire,
            ..device
        },
        reply: step.reply,
    }
}

// The caller tells the answer's fields: what was paid, rejected and so on. It is sent, and booked.
#[tactic(auto, unfolding(pretend_rules::specs::Device::device_tell))]
pub fn tell(device: Device, answer: Answer, room: &mut [u8]) -> Outcome
    ensures { after result room.new ≡ device_tell device answer room.old }
{
    let step = step_tell(device.wire, device.code, answer, room);
    Outcome {
        device: Device {
            wire: step.wire,
            answer: answer_by(device.answer, answer, step.reply),
            tallies: tally::tallied(device.tallies, answer, step.reply),
            ..device
        },
        reply: step.reply,
    }
}
