// The listing of the PHS file that a reader gives, written to a writer, through lent buffers.
#![tactic(auto)]

ghost use Rattle.std.specs.Prelude.{◌≡◌, ◌≤◌, ◌↔◌, IsTrue, length};
ghost use Rattle.phs.specs.Lines.{line_room};
ghost use Rattle.lister.specs.Listing.{Lists, Tells};
ghost use Rattle.lister.specs.Inside.{Comes, Gives, Ends};

use phs::{Reader, Stage};
use std::io;
use std::io::{Read, Write};

// The room that any line has enough of.
const LINE: usize = 256;

// Why a listing has no last line.
#[derive(Clone, Copy, Debug)]
pub enum Unlisted {
    // a read has failed
    Unread(io::Error),
    // a write has failed: the text is cut short
    Unwritten(io::Error),
    // nothing is read: the buffers have no room for a byte of input, or none for a line of text
    NoRoom,
    // the input goes on after more reads than a run can make
    Endless,
}

// Reads the file from the reader, a part at a time to its end or to its refusal, and writes the listing to the writer. A whole header clears
// the bank and opens slot 0, which stays open; of a bank that is not 4096 bytes the listing is `refused 1`, after the header's own refusals.
pub fn list<R: Read, W: Write>(
    bank: &mut [u8],
    input: &mut [u8],
    out: &mut [u8],
    from: &mut R,
    to: &mut W,
) -> Result<(), Unlisted>
    ensures lists { Lists bank.old input.old out.old from.old to.old result bank.new input.new out.new from.new to.new }
    ensures tells { Tells bank.old (R.remaining from.old) (W.contents to.old) result
        bank.new (R.remaining from.new) (W.contents to.new) }
{
    if input.is_empty() || out.len() < LINE {
        return Err(Unlisted::NoRoom);
    }
    let mut reader = phs::start();
    // A loop has to end: these are more reads than a run can make.
    for _ in 0..u64::MAX {
        let Some(n) = read(from, input)? else {
            return finish(reader, out, to);
        };
        reader = give(reader, bank, &input[..n], out, to).map_err(Unlisted::Unwritten)?;
        if is_over(reader) {
            return finish(reader, out, to);
        }
    }
    Err(Unlisted::Endless)
}

// One read of the input: how many bytes it brings, and at the end none.
fn read<R: Read>(from: &mut R, input: &mut [u8]) -> Result<Option<usize>, Unlisted>
    ensures { Comes (R.remaining from.old) (R.remaining from.new) input.new result }
{
    reads::meaning(from.read(input)).map_err(Unlisted::Unread)
}

// All of the part. What follows a refusal in it is passed over.
fn give<W: Write>(
    r: Reader,
    bank: &mut [u8],
    part: &[u8],
    out: &mut [u8],
    to: &mut W,
) -> io::Result<Reader>
    requires { line_room ≤ length out.old }
    ensures { Gives r bank.old part.now (W.contents to.old) (W.contents to.new) result bank.new }
{
    let mut reader = r;
    let mut rest = part;
    while !rest.is_empty() {
        let m = phs::read_part(reader, bank, rest, out);
        to.write_all(&out[..m.written])?;
        reader = m.reader;
        rest = &rest[m.read..];
    }
    Ok(reader)
}

// After a refusal no more is read.
fn is_over(r: Reader) -> bool
    ensures { IsTrue result ↔ r.stage ≡ Stage.Over }
{
    matches!(r.stage, Stage::Over)
}

// The last line.
fn finish<W: Write>(r: Reader, out: &mut [u8], to: &mut W) -> Result<(), Unlisted>
    ensures { Ends r out.old (W.contents to.old) (W.contents to.new) result }
{
    let n = phs::finish(r, out);
    to.write_all(&out[..n]).map_err(Unlisted::Unwritten)?;
    Ok(())
}
