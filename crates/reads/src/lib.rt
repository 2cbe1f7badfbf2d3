// What a read brought, by what it answered. Nothing is read here.
#![tactic(auto)]

ghost use Rattle.std.specs.Prelude.{◌≡◌};
ghost use Rattle.reads.specs.Counts.{meaning};

use std::io;

// An error is that error, a count of 0 is the end of the input, and any other is that many bytes, however few; more may follow.
pub fn meaning(got: io::Result<usize>) -> io::Result<Option<usize>>
    ensures { result ≡ meaning got }
{
    match got? {
        0 => Ok(None),
        n => Ok(Some(n)),
    }
}
