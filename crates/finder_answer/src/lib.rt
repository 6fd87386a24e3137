// What the finder program of document 01 prints for a phrase and a text: one line an engine, in the order of `rows`, or one refusal.
// It depends on `matching` for the refusals, on `find` and the engines for the finds, and on `finder_lines` and `pieces` for every byte of the lines.
// No answer is longer than 262,144 bytes (proofs/Fits.antt). Where the phrase and the text come from is not known here: `finder_output` takes the input apart.
#![tactic(auto)]

ghost use Rattle.std.specs.Prelude.{◌≡◌, ◌≤◌, ◌<◌, length};
ghost use Rattle.matching.specs.Find.{refusal};
ghost use Rattle.find.specs.Find.{engine_by};
ghost use Rattle.pieces.specs.Pieces.{Laid, put_all};
ghost use Rattle.finder_answer.specs.Answered.{rows, row_at, engine_line, engine_lines, answered};

use find::Method;

// Puts the line of one engine from `at` on: where the next line goes. The caller has met no refusal, and 2,306 scratch entries are enough for every method, so the find is not refused.
fn put_engine(
    method: Method,
    name: &[u8],
    phrase: &[u8],
    text: &[u8],
    output: &mut [u8],
    at: usize,
) -> usize
    requires { refusal (length phrase.now) (length text.now) 0 0 ≡ 0 }
    ensures { Laid output.new result (put_all output.old at (engine_line (record { name = name.entry.now; engine = engine_by method }) phrase.now text.now)) }
{
    let mut scratch = [0; 2306];
    let mut list = [0; 4096];
    let Ok(found) = method.find(phrase, text, &mut scratch, &mut list) else {
        unreachable!()
    };
    finder_lines::put_line(output, at, name, found.total, found.comparisons, &list)
}

// Puts the line of the engine in that row.
fn put_row(row: u32, phrase: &[u8], text: &[u8], output: &mut [u8], at: usize) -> usize
    requires row_in_bounds { row < length rows }
    requires text_value { refusal (length phrase.now) (length text.now) 0 0 ≡ 0 }
    ensures { Laid output.new result (put_all output.old at (engine_line (row_at row) phrase.now text.now)) }
{
    match row {
        0 => put_engine(Method::Naive, b"naive", phrase, text, output, at),
        1 => put_engine(Method::Kmp, b"kmp", phrase, text, output, at),
        2 => put_engine(Method::Horspool, b"horspool", phrase, text, output, at),
        3 => put_engine(Method::Sunday, b"sunday", phrase, text, output, at),
        4 => put_engine(Method::Fjs, b"fjs", phrase, text, output, at),
        5 => put_engine(Method::BoyerMoore, b"bm", phrase, text, output, at),
        6 => put_engine(Method::DoubleWindow, b"double", phrase, text, output, at),
        _ => put_engine(Method::ImprovedFjs, b"improved", phrase, text, output, at),
    }
}

// Puts the lines of all engines, row by row.
fn put_rows(phrase: &[u8], text: &[u8], output: &mut [u8]) -> usize
    requires { refusal (length phrase.now) (length text.now) 0 0 ≡ 0 }
    ensures { Laid output.new result (put_all output.old 0 (engine_lines rows phrase.now text.now)) }
{
    let mut at = 0;
    for row in 0..8 {
        at = put_row(row, phrase, text, output, at);
    }
    at
}

// Puts the answer for a phrase and a text. All engines refuse alike, so the refusal is tested once, before any of them; a scratch is never too short here.
pub fn put_answer(phrase: &[u8], text: &[u8], output: &mut [u8]) -> usize
    ensures { Laid output.new result (put_all output.old 0 (answered phrase.now text.now)) }
{
    match matching::refused(phrase.len(), text.len(), 0, 0) {
        Ok(()) => put_rows(phrase, text, output),
        Err(refusal) => finder_lines::put_refused(output, 0, refusal.into()),
    }
}
