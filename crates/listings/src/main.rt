// Lists the stored files of its folder in turn, through `lister::list`: every refusal of a file, both nominals and versions, feeders without a phase,
// short files and long ones.
#![tactic(auto)]

use lister::Unlisted;
use std::fs::File;
use std::io;
use std::io::{ErrorKind, Read, Write};

// A stored file, or why it can't be opened.
#[derive(Drop)]
struct Stored {
    file: io::Result<File>,
}

// A file that can't be opened can't be read.
impl Read for Stored {
    fn read(&mut self, buf: &mut [u8]) -> io::Result<usize> {
        match &mut self.file {
            Ok(file) => file.read(buf),
            Err(e) => Err(*e),
        }
    }
}

// What can't be written to.
#[derive(Drop)]
struct Nowhere;

impl Write for Nowhere {
    fn write(&mut self, _buf: &[u8]) -> io::Result<usize> {
        Err(io::Error::from(ErrorKind::BrokenPipe))
    }

    fn flush(&mut self) -> io::Result<()> {
        Ok(())
    }
}

// The program.
fn main(rt: HostRuntime) {
    for name in [
        // refused headers: 14, 14, 12, 6, 7
        "empty.phs",
        "header_cut.phs",
        "mark_wrong.phs",
        "nominal_wrong.phs",
        "rate_wrong.phs",
        // refused 13: numbers beside 1 and 2, and numbers with 1 or 2 as one of their bytes
        "version_0.phs",
        "version_3.phs",
        "version_256.phs",
        "version_258.phs",
        // sound files
        "header_only.phs",
        "fifty.phs",
        "sixty.phs",
        // rate 0 at both nominals, in version 1, where it means 10, and in version 2, where it means a report every cycle
        "fifty_rate_0_version_1.phs",
        "sixty_rate_0_version_1.phs",
        "fifty_rate_0_version_2.phs",
        "sixty_rate_0_version_2.phs",
        // noise of a count and of two, and reports whose parts are at and below four peak counts
        "dead.phs",
        "edge_of_phase.phs",
        // refused 15, and 8 with much after it; then files of several reads, the last of them refused 15
        "sample_cut.phs",
        "last_second.phs",
        "long.phs",
        "long_cut.phs",
    ] {
        list_thrice(&rt, name);
    }
    end_otherwise(&rt);
}

// Endings without a listing: no file to read, no place to write a refusal or the last line to, no room in either buffer.
fn end_otherwise(rt: &HostRuntime) {
    let mut bank = [0u8; 4096];
    let mut input = [0u8; 65536];
    let mut out = [0u8; 65536];
    let mut none = [0u8; 0];
    let mut less = [0u8; 255];
    let mut to = rt.stdout();
    list_file(rt, "missing.phs", &mut bank, &mut input, &mut out, &mut to);
    list_file(
        rt,
        "mark_wrong.phs",
        &mut bank,
        &mut input,
        &mut out,
        &mut Nowhere,
    );
    list_file(
        rt,
        "empty.phs",
        &mut bank,
        &mut input,
        &mut out,
        &mut Nowhere,
    );
    list_file(rt, "sixty.phs", &mut bank, &mut none, &mut out, &mut to);
    list_file(rt, "sixty.phs", &mut bank, &mut input, &mut less, &mut to);
}

// The file's name, and its listing with three pairs of buffers: the input of 65536 bytes or of 7, the output of 65536 bytes or of one line. The
// bank is lent from one listing to the next.
fn list_thrice(rt: &HostRuntime, name: &str) {
    print(rt, name);
    let mut bank = [0u8; 4096];
    let mut input = [0u8; 65536];
    let mut out = [0u8; 65536];
    let mut few = [0u8; 7];
    let mut line = [0u8; 256];
    let mut to = rt.stdout();
    list_file(rt, name, &mut bank, &mut input, &mut out, &mut to);
    list_file(rt, name, &mut bank, &mut few, &mut line, &mut to);
    list_file(rt, name, &mut bank, &mut input, &mut line, &mut to);
}

// The listing of a file, and how it ends.
fn list_file<W: Write>(
    rt: &HostRuntime,
    name: &str,
    bank: &mut [u8],
    input: &mut [u8],
    out: &mut [u8],
    to: &mut W,
) {
    let mut from = Stored {
        file: File::open(rt, name),
    };
    say(rt, lister::list(bank, input, out, &mut from, to));
}

// An ending that has no last line, by its word.
fn say(rt: &HostRuntime, listed: Result<(), Unlisted>) {
    match listed {
        Ok(()) => {}
        Err(Unlisted::Unread(_)) => print(rt, "unread"),
        Err(Unlisted::Unwritten(_)) => print(rt, "unwritten"),
        Err(Unlisted::NoRoom) => print(rt, "no room"),
        Err(Unlisted::Endless) => print(rt, "endless"),
    }
}

// A line. One that can't be printed is missed in what is compared.
fn print(rt: &HostRuntime, line: &str) {
    let _ = println!(rt; "{line}");
}
