// Mends the bank image on standard input: the mended image goes to standard output, and then a line for each slot to standard error.
#![tactic(auto)]

ghost use Rattle.std.specs.Prelude.{◌≤◌, ◌<◌, IfOk, length};

use salvage::MendedSlot;
use std::io::Read;
use std::{fmt, io};

// How many bytes an image has.
const IMAGE: usize = 4096;

// Reads the input to its end, or until more of it is held than an image has, and answers how much is held.
fn read_input(rt: &HostRuntime, room: &mut [u8]) -> io::Result<usize>
    requires { 4096 < length room.old }
    ensures { IfOk result (λ held. held ≤ length room.new) }
{
    let mut held = 0;
    while held <= IMAGE {
        match reads::meaning(rt.stdin().read(&mut room[held..]))? {
            None => break,
            Some(n) => held += n,
        }
    }
    Ok(held)
}

// What becomes of each slot, in lines such as `slot 3 trimmed 12`.
#[derive(Drop)]
struct Lines([MendedSlot; 16]);

impl fmt::Display for Lines {
    fn fmt<W: fmt::Write>(&self, f: &mut fmt::Formatter<W>) -> fmt::Result {
        for (k, slot) in self.0.iter().enumerate() {
            writeln!(f, "slot {k} {} {}", slot.fate, slot.differing)?;
        }
        Ok(())
    }
}

// Mends the image and writes it; where all of it is written, says in one write what becomes of each slot. An error is that of standard error.
fn mend(rt: &HostRuntime, image: &mut [u8]) -> io::Result<()> {
    let slots = match salvage::mend(image) {
        Ok(slots) => slots,
        Err(refused) => return eprintln!(rt; "{refused}"),
    };
    if let Err(e) = rt.stdout().write_all(image) {
        return eprintln!(rt; "mend: standard output: {e}");
    }
    eprint!(rt; "{}", Lines(slots))
}

// The program. There is more room than an image takes, so that a longer input is seen to be longer. What can't be said is left unsaid.
fn main(rt: HostRuntime) {
    let mut room = [0u8; 65536];
    let _ = match read_input(&rt, &mut room) {
        Ok(held) => mend(&rt, &mut room[..held]),
        Err(e) => eprintln!(rt; "mend: standard input: {e}"),
    };
}
