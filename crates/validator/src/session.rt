// The validator session: the line and the bills joined with the frames.
ghost use Rattle.std.specs.Prelude.{◌≡◌, ◌∷◌, ◌≤◌, length, set, take};
ghost use Rattle.ccnet_frame.specs.Frame.{frame};
ghost use Rattle.bill_table.specs.Table.{read_table};
ghost use Rattle.validator_rules.specs.Bills.{stacked_type, is_poll_answer, credited, remembered};
ghost use Rattle.validator_rules.specs.Session.{is_command, ack, nak, sent, sending, zeros, found, stepped, refused_step, step_after, lent_after, heard_after, after, table_class, class_to, inner, table_said, damaged_step, answered_step, class_step, judge_step, acted, byte_step, tick_step, request_step, session_request, session_byte, session_tick};

use crate::bills::booked;
use ccnet_class::{Class, classify};
use ccnet_frame::{body, write_ack, write_command, write_nak};
use refusals::{Declined, Done};
use validator_line::{heard, is_open, opened, passed, remembers};
use validator_rules::{Closing, Heard, Line, Outcome, Session, Step, Todo};

// The commands (003), and how many data bytes belong to ENABLE BILL TYPES.
const RESET: u8 = 0x30;

const POLL: u8 = 0x33;

const ENABLE: u8 = 0x34;

const ENABLE_DATA: usize = 6;

const STACK: u8 = 0x35;

const RETURN: u8 = 0x36;

const HOLD: u8 = 0x38;

// GET BILL TABLE: document 02, Q-1.
const TABLE: u8 = 0x41;

// The validator's address.
const VALIDATOR: u8 = 0x03;

// Can a command with that code and so many data bytes be sent?
#[tactic(auto, using(refusals::proofs::Rules::tests), unfolding(validator_rules::specs::Session::is_command))]
fn is_command(code: u8, size: usize) -> bool
    ensures { result ≡ (is_command code size).test }
{
    match code {
        ENABLE => size == ENABLE_DATA,
        RESET | POLL | STACK | RETURN | HOLD | TABLE => size == 0,
        _ => false,
    }
}

// A step that is done, and credits nothing: so many bytes put, and a closing.
fn done(line: Line, put: usize, closing: Closing) -> Step
    ensures { result ≡ stepped line put closing }
{
    Step {
        line,
        bill: None,
        reply: Ok(Done { put, closing }),
    }
}

// A step that is declined: the line stays as it was.
fn not_done(line: Line, why: Declined) -> Step
    ensures { result ≡ refused_step line why }
{
    Step {
        line,
        bill: None,
        reply: Err(why),
    }
}

// Keeps a byte at its place of the gathering store.
fn keep(store: &mut [u8], at: usize, b: u8)
    ensures { store.new ≡ set store.old at b }
{
    if at < store.len() {
        store[at] = b;
    }
}

// Clears the gathering store: once for each closing.
fn clear(store: &mut [u8; 255])
    ensures { store.new ≡ zeros }
{
    *store = [0; 255];
}

// Sends ACK, and says how many bytes that put.
fn send_ack(room: &mut [u8]) -> usize
    requires { 255 ≤ length room.old }
    ensures { sent result room.new ≡ sending ack room.old }
{
    write_ack(room).unwrap_or(0)
}

// Sends NAK.
fn send_nak(room: &mut [u8]) -> usize
    requires { 255 ≤ length room.old }
    ensures { sent result room.new ≡ sending nak room.old }
{
    write_nak(room).unwrap_or(0)
}

// Sends the command's frame.
fn send_command(code: u8, given: &[u8], room: &mut [u8]) -> usize
    requires in_bounds { 255 ≤ length room.old }
    requires given_len_bound { length given.now ≤ 6 }
    ensures { sent result room.new ≡ sending (frame 0x03 (code ∷ given.now)) room.old }
{
    write_command(VALIDATOR, code, given, room).unwrap_or(0)
}

// Closes without a reply.
fn close(line: Line, store: &mut [u8; 255], closing: Closing) -> Step
    ensures { (result ≡ stepped line 0 closing) × (store.new ≡ zeros) }
{
    clear(store);
    done(line, 0, closing)
}

// A damaged answer: NAK, and the command is closed.
#[tactic(auto, unfolding(validator_rules::specs::Session::damaged_step))]
fn damaged(line: Line, store: &mut [u8; 255], room: &mut [u8]) -> Step
    requires { 255 ≤ length room.old }
    ensures { lent_after result store.new room.new ≡ damaged_step line room.old }
{
    clear(store);
    let n = send_nak(room);
    done(line, n, Closing::Damaged)
}

// The type that an answer says was stacked; none, where it says something else.
fn stacked(class: Class) -> Option<usize>
    ensures { result ≡ stacked_type class }
{
    match class {
        Class::Stacked(bill) => Some(bill as usize),
        _ => None,
    }
}

// Is it a listed poll answer?
fn is_poll_answer(class: Class) -> bool
    ensures { result ≡ is_poll_answer class }
{
    matches!(
        class,
        Class::State(_)
            | Class::Busy(_)
            | Class::Rejecting(_)
            | Class::Failing(_)
            | Class::Escrow(_)
            | Class::Stacked(_)
            | Class::Returned(_)
    )
}

// The type of the bill that an answer to that command credits; none, where it credits none.
#[tactic(auto, using(refusals::proofs::Rules::tests), unfolding(validator_rules::specs::Bills::credited))]
fn credit(code: u64, last: Option<usize>, class: Class) -> Option<usize>
    ensures { result ≡ credited code last class }
{
    let bill = stacked(class);
    if code == POLL as u64 && bill != last {
        bill
    } else {
        None
    }
}

// What is remembered once that command has that answer.
#[tactic(auto, using(refusals::proofs::Rules::tests), unfolding(validator_rules::specs::Bills::remembered))]
fn memory(code: u64, last: Option<usize>, class: Class) -> Option<usize>
    ensures { result ≡ remembered code last class }
{
    if code == POLL as u64 && is_poll_answer(class) {
        stacked(class)
    } else {
        last
    }
}

// An answer: ACK, and the command is closed. What it says is told while its body still stands in the store.
#[tactic(auto, unfolding(validator_rules::specs::Session::answered_step))]
fn answered(line: Line, class: Class, store: &mut [u8; 255], room: &mut [u8]) -> Step
    requires { 255 ≤ length room.old }
    ensures { lent_after result store.new room.new ≡ answered_step line class room.old }
{
    let bill = credit(line.code, line.last, class);
    let last = memory(line.code, line.last, class);
    clear(store);
    Step {
        line: remembers(line, last),
        bill,
        reply: Ok(Done {
            put: send_ack(room),
            closing: Closing::Answered(class),
        }),
    }
}

// A good answer. ACK, NAK and "illegal" close without a reply.
fn said(line: Line, class: Class, store: &mut [u8; 255], room: &mut [u8]) -> Step
    requires { 255 ≤ length room.old }
    ensures { lent_after result store.new room.new ≡ class_step class line room.old }
{
    match class {
        Class::Ack => close(line, store, Closing::Acknowledged),
        Class::Nak => close(line, store, Closing::NotAcknowledged),
        Class::Illegal => close(line, store, Closing::IllegalCommand),
        _ => answered(line, class, store, room),
    }
}

// What a body says in answer to GET BILL TABLE: but for the three that close without a reply, any body of at most 120 bytes is the table.
fn table_class(class: Class, body: &[u8]) -> Class
    ensures { result ≡ table_class class body.now }
{
    match class {
        Class::Ack | Class::Nak | Class::Illegal => class,
        _ if body.len() <= bill_table::SIZE => Class::Table,
        _ => Class::Unknown,
    }
}

// What a body says in answer to a command with that code.
#[tactic(auto, using(refusals::proofs::Rules::tests), unfolding(validator_rules::specs::Session::class_to))]
fn class_to(code: u64, body: &[u8]) -> Class
    ensures { result ≡ class_to code body.now }
{
    let class = classify(body);
    if code == TABLE as u64 {
        return table_class(class, body);
    }
    class
}

// What a frame is found to be. A good body is never empty, and that of a refused frame always is.
fn read(code: u64, frame: &[u8]) -> Option<Class>
    ensures { result ≡ found code frame.now }
{
    let part = body(frame);
    if part.is_empty() {
        return None;
    }
    Some(class_to(code, part))
}

// What the gathered frame is found to be; no more than the store holds.
fn gathered(code: u64, store: &[u8], size: usize) -> Option<Class>
    ensures { result ≡ found code (take size store.now) }
{
    read(code, &store[..size.min(store.len())])
}

// Keeps a frame's body as the bill table.
fn keep_body(frame: &[u8], table: &mut [u8; 120])
    ensures { table.new ≡ (read_table (inner frame.now) table.old).table }
{
    if frame.len() < 5 {
        bill_table::read(&[], table);
        return;
    }
    bill_table::read(&frame[3..frame.len() - 2], table);
}

// Keeps the bill table, where the frame says one, while its bytes still stand in the store.
#[tactic(auto, using(refusals::proofs::Rules::tests), unfolding(validator_rules::specs::Session::table_said))]
fn keep_table(class: Class, store: &[u8], size: usize, table: &mut [u8; 120])
    ensures { table.new ≡ table_said class (take size store.now) table.old }
{
    if matches!(class, Class::Table) {
        keep_body(&store[..size.min(store.len())], table);
    }
}

// Judges the frame, which is full.
#[tactic(auto, unfolding(validator_rules::specs::Session::judge_step))]
fn judge(
    line: Line,
    size: usize,
    store: &mut [u8; 255],
    table: &mut [u8; 120],
    room: &mut [u8],
) -> Step
    requires { 255 ≤ length room.old }
    ensures { heard_after (lent_after result store.new room.new) table.new ≡ judge_step line size store.old table.old room.old }
{
    match gathered(line.code, store, size) {
        None => damaged(line, store, room),
        Some(class) => {
            keep_table(class, store, size, table);
            said(line, class, store, room)
        }
    }
}

// Does what is to be done when time has passed.
fn act(line: Line, todo: Todo, store: &mut [u8; 255], room: &mut [u8]) -> Step
    requires { 255 ≤ length room.old }
    ensures { lent_after result store.new room.new ≡ acted todo line store.old room.old }
{
    match todo {
        Todo::Nothing => done(line, 0, Closing::Nothing),
        Todo::CloseDamaged => damaged(line, store, room),
        Todo::CloseSilent => close(line, store, Closing::Silent),
    }
}

// A byte arrives. Where it ends an answer with a bill table, which the closing says, the table that is lent holds it afterwards.
#[tactic(auto, using(refusals::proofs::Rules::tests), unfolding(validator_rules::specs::Session::byte_step, validator_rules::specs::Session::byte_refusals))]
pub fn step_byte(
    line: Line,
    store: &mut [u8; 255],
    table: &mut [u8; 120],
    b: u8,
    room: &mut [u8],
) -> Step
    ensures { heard_after (lent_after result store.new room.new) table.new ≡ byte_step line store.old table.old b room.old }
{
    if room.len() < Session::ROOM {
        return not_done(line, Declined::Room);
    }
    let hearing = heard(line, b);
    let next = hearing.line;
    match hearing.heard {
        Heard::Skip => done(next, 0, Closing::Nothing),
        Heard::Keep => {
            keep(store, line.gathered, b);
            done(next, 0, Closing::Nothing)
        }
        Heard::Judge => {
            keep(store, line.gathered, b);
            judge(next, line.length, store, table, room)
        }
        Heard::Wrong => damaged(next, store, room),
    }
}

// So many milliseconds pass.
#[tactic(auto, using(refusals::proofs::Rules::tests), unfolding(validator_rules::specs::Session::tick_step, validator_rules::specs::Session::tick_refusals))]
pub fn step_tick(line: Line, store: &mut [u8; 255], ms: u32, room: &mut [u8]) -> Step
    ensures { lent_after result store.new room.new ≡ tick_step line store.old ms room.old }
{
    if room.len() < Session::ROOM {
        return not_done(line, Declined::Room);
    }
    if !(1..=Session::TICK).contains(&ms) {
        return not_done(line, Declined::Tick);
    }
    let turn = passed(line, ms as u64);
    act(turn.line, turn.todo, store, room)
}

// A request: a code, and its data.
#[tactic(auto, using(refusals::proofs::Rules::tests), unfolding(validator_rules::specs::Session::request_step, validator_rules::specs::Session::request_refusals))]
pub fn step_request(line: Line, code: u8, given: &[u8], room: &mut [u8]) -> Step
    ensures { step_after result room.new ≡ request_step line code given.now room.old }
{
    if room.len() < Session::ROOM {
        return not_done(line, Declined::Room);
    }
    if !is_command(code, given.len()) {
        return not_done(line, Declined::Range);
    }
    if is_open(line) {
        return not_done(line, Declined::Open);
    }
    if 0 < line.left {
        return not_done(line, Declined::Unquiet);
    }
    if Session::COMMANDS <= line.accepted {
        return not_done(line, Declined::Spent);
    }
    let n = send_command(code, given, room);
    let next = opened(line, code as u64, line.accepted + 1);
    done(next, n, Closing::Nothing)
}

// A request: a code, and its data (none but for ENABLE BILL TYPES). GET BILL TABLE asks for the table that the session then holds.
#[tactic(auto, unfolding(validator_rules::specs::Session::session_request))]
pub fn request(session: Session, code: u8, given: &[u8], room: &mut [u8]) -> Outcome
    ensures { after result room.new ≡ session_request session code given.now room.old }
{
    let step = step_request(session.line, code, given, room);
    Outcome {
        session: Session {
            line: step.line,
            ..session
        },
        reply: step.reply,
    }
}

// A byte from the validator.
#[tactic(auto, unfolding(validator_rules::specs::Session::session_byte))]
pub fn byte(session: Session, b: u8, room: &mut [u8]) -> Outcome
    ensures { after result room.new ≡ session_byte session b room.old }
{
    let mut store = session.store;
    let mut table = session.table;
    let step = step_byte(session.line, &mut store, &mut table, b, room);
    Outcome {
        session: Session {
            line: step.line,
            bills: booked(session.bills, step.bill),
            store,
            table,
        },
        reply: step.reply,
    }
}

// So many milliseconds pass.
#[tactic(auto, unfolding(validator_rules::specs::Session::session_tick))]
pub fn tick(session: Session, ms: u32, room: &mut [u8]) -> Outcome
    ensures { after result room.new ≡ session_tick session ms room.old }
{
    let mut store = session.store;
    let step = step_tick(session.line, &mut store, ms, room);
    Outcome {
        session: Session {
            line: step.line,
            bills: booked(session.bills, step.bill),
            store,
            ..session
        },
        reply: step.reply,
    }
}
