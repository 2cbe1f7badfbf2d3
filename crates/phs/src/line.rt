// Document 01, "PHS files and the listing": the lines, each put at the start of bytes that have room for any line.
ghost use Rattle.std.specs.Prelude.{◌≡◌, ◌∷◌, replicate};
ghost use Rattle.text.specs.declared.Word.TheVariants.{Number, Blank};
ghost use Rattle.text.specs.Put.{Leads};
ghost use Rattle.refusals.specs.Refusals.{number_of};
ghost use Rattle.phs.specs.Lines.{head_line, report_line, last_line, refused_line, line_room};

use crate::feeding::Counts;
use feed::Report;
use header::Header;
use refusals::Refused;
use text::Word;

// The room that any line has enough of.
pub(crate) const LINE: usize = 256;

// `PHS version nominal rate`
pub(crate) fn put_head(h: Header, line: &mut [u8; LINE]) -> usize
    ensures { Leads line_room (head_line h.version h.nominal h.rate) line.old result line.new }
{
    let words = counts(
        u64::from(h.version),
        u64::from(h.nominal),
        u64::from(h.rate),
    );
    text::put(b"PHS % % %\n", words, line, 0)
}

// `SOC frame re im d1 d2 mark`
pub(crate) fn put_report(r: Report, line: &mut [u8; LINE]) -> usize
    ensures { Leads line_room (report_line r.soc r.frame r.re r.im r.d1 r.d2 r.mark) line.old result line.new }
{
    let words = [
        Word::Number(u64::from(r.soc)),
        Word::Number(u64::from(r.frame)),
        Word::Whole(r.re),
        Word::Whole(r.im),
        Word::Whole(i64::from(r.d1)),
        Word::Whole(i64::from(r.d2)),
        Word::Number(u64::from(r.mark)),
        Word::Blank,
        Word::Blank,
        Word::Blank,
        Word::Blank,
    ];
    text::put(b"% % % % % % %\n", words, line, 0)
}

// `reports R samples S`
pub(crate) fn put_last(c: Counts, line: &mut [u8; LINE]) -> usize
    ensures { Leads line_room (last_line c.reports c.samples) line.old result line.new }
{
    text::put(
        b"reports % samples %\n",
        counts(c.reports, c.samples, 0),
        line,
        0,
    )
}

// `refused N`
pub(crate) fn put_refused(refused: Refused, line: &mut [u8; LINE]) -> usize
    ensures { Leads line_room (refused_line (number_of refused)) line.old result line.new }
{
    let number = u64::from(refused.number());
    text::put(b"refused %\n", counts(number, 0, 0), line, 0)
}

// Three counts. A form with fewer `%` leaves the others out.
fn counts(a: u64, b: u64, c: u64) -> [Word; 11]
    ensures { result ≡ Number a ∷ Number b ∷ Number c ∷ replicate 8 Blank }
{
    let mut words = [Word::Blank; 11];
    words[0] = Word::Number(a);
    words[1] = Word::Number(b);
    words[2] = Word::Number(c);
    words
}
