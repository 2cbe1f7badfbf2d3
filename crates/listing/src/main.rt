// Lists the PHS file on standard input. Its text goes to standard output, in parts of at most 64 KiB.
#![tactic(auto)]

use lister::Unlisted;
use std::io::ErrorKind;

// The program. Where the listing has no last line, standard error says why, with the system's reason. Where that can't be said either, nothing is.
fn main(rt: HostRuntime) {
    // the bank
    let mut bank = [0u8; 4096];
    let mut input = [0u8; 65536];
    let mut out = [0u8; 65536];
    let mut from = rt.stdin();
    let mut to = rt.stdout();
    let Err(why) = lister::list(&mut bank, &mut input, &mut out, &mut from, &mut to) else {
        return;
    };
    let _ = match why {
        Unlisted::Unread(e) => eprintln!(rt; "listing: standard input: {e}"),
        // a write that takes no byte has no reason of the system's
        Unlisted::Unwritten(e) if matches!(e.kind(), ErrorKind::WriteZero) => {
            eprintln!(rt; "listing: standard output")
        }
        Unlisted::Unwritten(e) => eprintln!(rt; "listing: standard output: {e}"),
        // not reached: there is room
        Unlisted::NoRoom => eprintln!(rt; "listing: no room"),
        Unlisted::Endless => eprintln!(rt; "listing: standard input: too many reads"),
    };
}
