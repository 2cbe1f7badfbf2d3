// Runs a script of calls from standard input on the library, and prints a line for each answer.
#![tactic(auto)]

mod answer;
mod calls;
mod lines;
mod script;

ghost use Rattle.std.specs.Prelude.{◌+◌, ◌≤◌, length, IfOk};

use answer::Answer;
use lines::Text;
use refusals::Refused;
use script::{Call, Record};
use std::fmt::Write;
use std::io::Read;
use std::{fmt, io};

// Why a script is not run to its end.
#[derive(Drop)]
pub(crate) enum Stop {
    // a record that is cut short, or whose first byte is unknown
    BadRecord,
    // a read has failed
    Unread(io::Error),
    // the answers can't be written
    Unwritten(io::Error),
    // more reads than a run can make: a loop has to end, and nothing says that a script does
    Endless,
}

// Makes the call of a record.
fn call<'a>(record: Record, memory: &'a mut [u8]) -> Result<Answer<'a>, Refused> {
    Ok(match record.call {
        Call::Clear => calls::clear(record, memory).map(|()| Answer::Done)?,
        Call::Open => calls::open(record, memory).map(|()| Answer::Done)?,
        Call::Push => Answer::Taken(calls::push(record, memory)?),
        Call::Close => calls::close(record, memory).map(|()| Answer::Done)?,
        Call::Mend => Answer::Mended(calls::mend(record, memory)?),
        Call::Set => {
            calls::set(record, memory);
            Answer::Quiet
        }
        Call::Show => match calls::show(record, memory) {
            Some(slot) => Answer::Bytes(slot),
            None => Answer::Quiet,
        },
        Call::Measure => Answer::Measured(calls::measure(record)?),
        Call::Judge => Answer::Judged(calls::judge(record)?),
        Call::Read => Answer::Read(calls::read(record)?),
    })
}

// Makes the call of a record, and puts its line, for which there is room.
fn run(record: Record, memory: &mut [u8], out: &mut Text) -> fmt::Result
    requires { out.old.len + 1024 ≤ 65536 }
{
    match call(record, memory) {
        Ok(answer) => answer.put(out),
        Err(refused) => writeln!(out, "{refused}"),
    }
}

// Runs the whole records that a part of the script begins with, and answers how many bytes they are.
fn run_all(rt: &HostRuntime, part: &[u8], memory: &mut [u8], out: &mut Text) -> Result<usize, Stop>
    ensures { IfOk result (λ n. n ≤ length part.now) }
{
    let mut at = 0;
    while let Some(record) = Record::first(&part[at..])? {
        out.make_room(rt).map_err(Stop::Unwritten)?;
        // no line is longer than its room
        let _ = run(record, memory, out);
        at += record.bytes.len();
    }
    Ok(at)
}

// Runs the script to its end. The bytes that are held are those of a record that is not whole yet.
fn run_script(
    rt: &HostRuntime,
    memory: &mut [u8],
    input: &mut [u8],
    out: &mut Text,
) -> Result<(), Stop> {
    let mut held = 0;
    for _ in 0..u64::MAX {
        let got = rt.stdin().read(&mut input[held..]);
        let Some(n) = reads::meaning(got).map_err(Stop::Unread)? else {
            return if held == 0 {
                Ok(())
            } else {
                Err(Stop::BadRecord)
            };
        };
        let end = held + n;
        let at = run_all(rt, &input[..end], memory, out)?;
        input.copy_within(at..end, 0);
        held = end - at;
    }
    Err(Stop::Endless)
}

// Runs the script, writes the answers that are left, and says how the script ends.
fn replay(rt: &HostRuntime, memory: &mut [u8], input: &mut [u8], out: &mut Text) -> io::Result<()> {
    match run_script(rt, memory, input, out) {
        Ok(()) => {}
        Err(Stop::BadRecord) => {
            out.flush(rt)?;
            let _ = writeln!(out, "bad record");
        }
        // what can't be said is left unsaid
        Err(Stop::Unread(e)) => {
            let _ = eprintln!(rt; "replay: standard input: {e}");
        }
        Err(Stop::Unwritten(e)) => return Err(e),
        Err(Stop::Endless) => {
            let _ = eprintln!(rt; "replay: standard input: too many reads");
            return Ok(());
        }
    }
    out.flush(rt)
}

// The program: memory of 8192 zeros, and the script.
fn main(rt: HostRuntime) {
    let mut memory = [0; 8192];
    let mut input = [0; 65536];
    let mut out = Text::new();
    if let Err(e) = replay(&rt, &mut memory, &mut input, &mut out) {
        let _ = eprintln!(rt; "replay: standard output: {e}");
    }
}
