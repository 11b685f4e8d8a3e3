// The session: the exchange and the account joined with the frames, and the serial of each dispense.
ghost use Rattle.std.specs.Prelude.{◌≡◌, ◌+◌, ◌<◌, length};
ghost use Rattle.exchange_rules.specs.Exchange.{closed};
ghost use Rattle.vcdm_rules.specs.Session.{refused_opening, step_after, byte_after, opening_after, after, handed, hand_over, following, serial_for, serial_after, more_quiet, acted, bad_step, dispense_found, found_by, finding, found_step, judge_step, byte_step, tick_step, request_step, session_request, session_byte, session_tick};

use exchange::step::{done, gathered, keep, not_done, send};
use exchange_rules::{Heard, Line, Todo};
use refusals::{Declined, Done};
use vcdm_books::{booked, booked_request};
use vcdm_frame::{answer_length, code_of, is_askable, read_answer, write_command};
use vcdm_frame_rules::{Answer, Counts, DISPENSE, FIRST_SERIAL, LAST_SERIAL, REPEATED, RESET};
use vcdm_rules::{Asked, Closing, Finding, Opening, Outcome, Session, Step};

// Hands the command's frame over, with its own serial, and says how many bytes that put.
fn hand_over(asked: Asked, room: &mut [u8]) -> usize
    ensures { handed result room.new ≡ hand_over asked room.old }
{
    write_command(asked.code, asked.counts, asked.serial, room).unwrap_or(0)
}

// The quiet that a command with this code asks for beyond the line's, once it is closed.
#[tactic(auto, unfolding(vcdm_rules::specs::Session::more_quiet))]
fn more_quiet(code: u8) -> u64
    ensures { result ≡ more_quiet code }
{
    if code == RESET {
        Session::AFTER_RESET
    } else {
        0
    }
}

// The line at a closing that needs so much quiet, and more after a reset.
fn shut(line: Line, quiet: u64, code: u8) -> Line
    requires { quiet < 100_000 }
    ensures { result ≡ closed line (quiet + more_quiet code) }
{
    let need = quiet + more_quiet(code);
    exchange::line::closed(line, need)
}

// Does what the exchange says.
fn act(line: Line, todo: Todo, asked: Asked, room: &mut [u8]) -> Step
    requires { 0 < length room.old }
    ensures { step_after result room.new ≡ acted todo line asked room.old }
{
    match todo {
        Todo::Nothing => done(line, 0, Closing::Nothing),
        Todo::HandOver => done(line, hand_over(asked, room), Closing::Nothing),
        Todo::Nak => {
            send(room, 0x15);
            done(line, 1, Closing::Nothing)
        }
        Todo::LastNak => {
            send(room, 0x15);
            let next = shut(line, Session::LONG_QUIET, asked.code);
            done(next, 1, Closing::Unknown)
        }
        Todo::CloseRefused => {
            let next = shut(line, Session::QUIET, asked.code);
            done(next, 0, Closing::Refused)
        }
        Todo::CloseUnknown => {
            let next = shut(line, Session::LONG_QUIET, asked.code);
            done(next, 0, Closing::Unknown)
        }
    }
}

// A bad frame, or a late one.
#[tactic(auto, unfolding(vcdm_rules::specs::Session::bad_step))]
fn bad(line: Line, asked: Asked, room: &mut [u8]) -> Step
    requires { 0 < length room.old }
    ensures { step_after result room.new ≡ bad_step line asked room.old }
{
    let turn = exchange::line::bad(line);
    act(turn.line, turn.todo, asked, room)
}

// What a dispense's answer is, with its error byte and serial, to the dispense with this serial of its own.
fn dispense_found(own: u8, error: u8, serial: u8) -> Finding
    ensures { result ≡ dispense_found own error serial }
{
    if serial != own {
        Finding::Bad
    } else if error == REPEATED {
        Finding::Void
    } else {
        Finding::Good
    }
}

// What an answer with the code asked is.
fn found_by(own: u8, answer: Answer) -> Finding
    ensures { result ≡ found_by own answer }
{
    match answer {
        Answer::Dispensed { error, serial, .. } => dispense_found(own, error, serial),
        Answer::Reset { .. }
        | Answer::Status { .. }
        | Answer::Purged { .. }
        | Answer::Last { .. } => Finding::Good,
    }
}

// What an answer is to the command that is open.
#[tactic(auto, unfolding(vcdm_rules::specs::Session::finding))]
fn find(code: u8, own: u8, answer: Answer) -> Finding
    ensures { result ≡ finding code own answer }
{
    if code_of(answer) == code {
        found_by(own, answer)
    } else {
        Finding::Bad
    }
}

// Judges the frame, which is full: a good answer is sent 06h and closes the command; one that says nothing was paid is sent 06h too, and closes it as refused.
#[tactic(auto, unfolding(vcdm_rules::specs::Session::judge_step))]
fn judge(line: Line, asked: Asked, store: &[u8], room: &mut [u8]) -> Step
    requires { 0 < length room.old }
    ensures { step_after result room.new ≡ judge_step line asked store.now room.old }
{
    match read_answer(gathered(store, asked.span)) {
        Ok(answer) => conclude(line, asked, answer, room),
        Err(_) => bad(line, asked, room),
    }
}

// By what the answer is.
fn conclude(line: Line, asked: Asked, answer: Answer, room: &mut [u8]) -> Step
    requires { 0 < length room.old }
    ensures { step_after result room.new ≡ found_step (finding asked.code asked.serial answer) answer line asked room.old }
{
    let closing = match find(asked.code, asked.serial, answer) {
        Finding::Bad => return bad(line, asked, room),
        Finding::Good => Closing::Answered(answer),
        Finding::Void => Closing::Refused,
    };
    send(room, 0x06);
    done(shut(line, Session::QUIET, asked.code), 1, closing)
}

// A byte arrives.
// Here and below as in `dispenser`, but for `act` and `judge`: a function over both units would take these as closures with `acted` and `judge_step` in its clauses, and is no plainer.
#[tactic(auto, unfolding(vcdm_rules::specs::Session::byte_step, vcdm_rules::specs::Session::byte_refusals))]
fn step_byte(line: Line, asked: Asked, store: &mut [u8; 30], b: u8, room: &mut [u8]) -> Step
    ensures { byte_after result store.new room.new ≡ byte_step line asked store.old b room.old }
{
    if room.len() < Session::ROOM {
        return not_done(line, Declined::Room);
    }
    let hearing = exchange::line::heard(line, asked.span, b);
    match hearing.heard {
        Heard::Keep => {
            keep(store, line.gathered, b);
            done(hearing.line, 0, Closing::Nothing)
        }
        Heard::Judge => {
            keep(store, line.gathered, b);
            judge(hearing.line, asked, store, room)
        }
        Heard::Do(todo) => act(hearing.line, todo, asked, room),
    }
}

// So many milliseconds pass.
#[tactic(auto, using(refusals::proofs::Rules::tests), unfolding(vcdm_rules::specs::Session::tick_step, vcdm_rules::specs::Session::tick_refusals))]
fn step_tick(line: Line, asked: Asked, ms: u32, room: &mut [u8]) -> Step
    ensures { step_after result room.new ≡ tick_step line asked ms room.old }
{
    if room.len() < Session::ROOM {
        return not_done(line, Declined::Room);
    }
    if !(1..=Session::TICK).contains(&ms) {
        return not_done(line, Declined::Tick);
    }
    let turn = exchange::line::passed(line, u64::from(ms));
    act(turn.line, turn.todo, asked, room)
}

fn not_opened(line: Line, asked: Asked, serial: u8, why: Declined) -> Opening
    ensures { result ≡ refused_opening line asked serial why }
{
    Opening {
        line,
        asked,
        serial,
        reply: Err(why),
    }
}

// The serial after this one: from 7Fh it begins again at 21h.
#[tactic(auto, unfolding(vcdm_rules::specs::Session::following))]
fn following(serial: u8) -> u8
    ensures { result ≡ following serial }
{
    if serial < LAST_SERIAL {
        serial + 1
    } else {
        FIRST_SERIAL
    }
}

// The serial of a command, and the next one after it.
#[tactic(auto, unfolding(vcdm_rules::specs::Session::serial_for))]
fn serial_for(code: u8, serial: u8) -> u8
    ensures { result ≡ serial_for code serial }
{
    if code == DISPENSE { serial } else { 0 }
}

#[tactic(auto, unfolding(vcdm_rules::specs::Session::serial_after))]
fn serial_after(code: u8, serial: u8) -> u8
    ensures { result ≡ serial_after code serial }
{
    if code == DISPENSE {
        following(serial)
    } else {
        serial
    }
}

// A request: a code, and the notes asked of each cassette. A dispense takes the serial.
#[tactic(auto, unfolding(vcdm_rules::specs::Session::request_step, vcdm_rules::specs::Session::request_refusals))]
fn step_request(
    line: Line,
    asked: Asked,
    serial: u8,
    code: u8,
    counts: Counts,
    room: &mut [u8],
) -> Opening
    ensures { opening_after result room.new ≡ request_step line asked serial code counts room.old }
{
    if room.len() < Session::ROOM {
        return not_opened(line, asked, serial, Declined::Room);
    }
    if !is_askable(code, counts) {
        return not_opened(line, asked, serial, Declined::Range);
    }
    if exchange::line::is_open(line) {
        return not_opened(line, asked, serial, Declined::Open);
    }
    if 0 < line.left {
        return not_opened(line, asked, serial, Declined::Unquiet);
    }
    if Session::COMMANDS <= line.accepted {
        return not_opened(line, asked, serial, Declined::Spent);
    }
    let new = Asked {
        code,
        counts,
        serial: serial_for(code, serial),
        span: answer_length(code),
    };
    let put = hand_over(new, room);
    Opening {
        line: exchange::line::opened(line, line.accepted + 1),
        asked: new,
        serial: serial_after(code, serial),
        reply: Ok(Done {
            put,
            closing: Closing::Nothing,
        }),
    }
}

// A request: a code, and the notes asked of each cassette (0 where none are). The caller gives no serial.
#[tactic(auto, unfolding(vcdm_rules::specs::Session::session_request))]
pub fn request(session: Session, code: u8, counts: Counts, room: &mut [u8]) -> Outcome
    ensures { after result room.new ≡ session_request session code counts room.old }
{
    let opening = step_request(
        session.line,
        session.asked,
        session.serial,
        code,
        counts,
        room,
    );
    Outcome {
        session: Session {
            line: opening.line,
            asked: opening.asked,
            account: booked_request(session.account, opening.asked, opening.reply),
            serial: opening.serial,
            ..session
        },
        reply: opening.reply,
    }
}

// A byte from the unit.
#[tactic(auto, using(vcdm_rules::proofs::Same::left_serial), unfolding(vcdm_rules::specs::Session::session_byte))]
pub fn byte(session: Session, b: u8, room: &mut [u8]) -> Outcome
    ensures { after result room.new ≡ session_byte session b room.old }
{
    let mut store = session.store;
    let Step { line, reply } = step_byte(session.line, session.asked, &mut store, b, room);
    Outcome {
        session: Session {
            line,
            account: booked(session.account, session.asked, reply),
            store,
            ..session
        },
        reply,
    }
}

// So many milliseconds pass.
#[tactic(auto, using(vcdm_rules::proofs::Same::left_serial), unfolding(vcdm_rules::specs::Session::session_tick))]
pub fn tick(session: Session, ms: u32, room: &mut [u8]) -> Outcome
    ensures { after result room.new ≡ session_tick session ms room.old }
{
    let Step { line, reply } = step_tick(session.line, session.asked, ms, room);
    Outcome {
        session: Session {
            line,
            account: booked(session.account, session.asked, reply),
            ..session
        },
        reply,
    }
}
