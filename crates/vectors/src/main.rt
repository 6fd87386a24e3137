// A program that executes the worked cases of document 01 that are not starred, cases of document 02, and further tables; what it prints is held to the file `stdout`.
// rust/tests/tests/vectors.rs builds that file again from the reference implementation, case by case; a new case here needs its line there and in `stdout`.
// It depends on the crates whose functions it calls.
// One line a case: what is asked, then numbers, one space before each. Every table is 9 throughout, and every list 9, before it is used.
#![tactic(auto)]

use find::Method;
use matching::{Answer, Finding};
use std::fmt::{self, Write};

// The standard output. Where it cannot be written, the cases go on all the same.
#[derive(Drop)]
struct Output;

impl Write for Output {
    fn write_str(&mut self, text: &str) -> fmt::Result {
        io::write_all(1, text.as_bytes());
        Ok(())
    }
}

// The numbers that end a line: one space before each.
#[derive(Clone, Copy)]
struct Numbers<'a, T> {
    numbers: &'a [T],
}

impl<T: fmt::Display> fmt::Display for Numbers<'_, T> {
    fn fmt<W: fmt::Write>(&self, f: &mut fmt::Formatter<W>) -> fmt::Result {
        for number in self.numbers {
            write!(f, " {number}")?;
        }
        Ok(())
    }
}

// Those of a table from a place on, up to another or to the table's end.
fn entries(table: &[u16], from: usize, to: usize) -> Numbers<'_, u16> {
    let end = to.min(table.len());
    Numbers {
        numbers: &table[from.min(end)..end],
    }
}

// The KMP table of a pattern: its first `count` entries, one more than were made.
fn kmp_table(out: &mut Output, pattern: &str, count: usize) -> fmt::Result {
    let mut table = [9; 16];
    border_tables::kmp_table(pattern.as_bytes(), &mut table);
    let made = entries(&table, 0, count);
    writeln!(out, "kmp table {pattern}{made}")
}

// A KMP table of five entries: too short for five letters, just enough for four.
fn kmp_table_in_five(out: &mut Output, pattern: &str) -> fmt::Result {
    let mut table = [9; 5];
    border_tables::kmp_table(pattern.as_bytes(), &mut table);
    let made = entries(&table, 0, 5);
    writeln!(out, "kmp table in five {pattern}{made}")
}

// Sunday, Horspool and DELTA1 tables: the entries of some letters. A letter table has 256 entries, and one more here.
fn sunday_table(out: &mut Output, pattern: &str, from: usize, to: usize) -> fmt::Result {
    let mut table = [9; 257];
    letter_tables::sunday_table(pattern.as_bytes(), &mut table);
    let made = entries(&table, from, to);
    writeln!(out, "sunday table {pattern}{made}")
}

fn horspool_table(out: &mut Output, pattern: &str, from: usize, to: usize) -> fmt::Result {
    let mut table = [9; 257];
    letter_tables::horspool_table(pattern.as_bytes(), &mut table);
    let made = entries(&table, from, to);
    writeln!(out, "horspool table {pattern}{made}")
}

fn delta1_table(out: &mut Output, pattern: &str, from: usize, to: usize) -> fmt::Result {
    let mut table = [9; 257];
    letter_tables::delta1_table(pattern.as_bytes(), &mut table);
    let made = entries(&table, from, to);
    writeln!(out, "delta1 table {pattern}{made}")
}

// All three in a table one entry short.
fn letter_tables_in_255(out: &mut Output, pattern: &str) -> fmt::Result {
    let mut table = [9; 255];
    letter_tables::sunday_table(pattern.as_bytes(), &mut table);
    letter_tables::horspool_table(pattern.as_bytes(), &mut table);
    letter_tables::delta1_table(pattern.as_bytes(), &mut table);
    let made = entries(&table, 96, 110);
    writeln!(out, "letter tables in 255 {pattern}{made}")
}

// The DELTA2 table of a pattern in so many entries, with so many lent for the borders of its suffixes: all entries of either.
fn delta2_table(out: &mut Output, pattern: &str, room: usize, lent: usize) -> fmt::Result {
    let mut borders = [9; 16];
    let mut table = [9; 16];
    let borders = &mut borders[..lent.min(16)];
    let table = &mut table[..room.min(16)];
    suffix_tables::delta2_table(pattern.as_bytes(), borders, table);
    let made = Numbers { numbers: &*table };
    writeln!(out, "delta2 table {pattern}{made}")?;
    let found = Numbers { numbers: &*borders };
    writeln!(out, "borders {pattern}{found}")
}

// The widest gap of a pattern and its position; and the KMP entries and MAX_Shift, all entries of the table that they were lent, so many.
fn max_shift_table(out: &mut Output, pattern: &str, room: usize) -> fmt::Result {
    let mut table = [9; 24];
    let table = &mut table[..room.min(24)];
    let widest = border_tables::max_shift_table(pattern.as_bytes(), table);
    let width = widest.width;
    let letter = widest.letter;
    writeln!(out, "widest gap {pattern} {width} {letter}")?;
    let made = Numbers { numbers: &*table };
    writeln!(out, "max shift table {pattern}{made}")
}

fn tables(out: &mut Output) -> fmt::Result {
    kmp_table(out, "a", 3)?;
    kmp_table(out, "aaaa", 6)?;
    kmp_table(out, "aaab", 6)?;
    kmp_table(out, "abab", 6)?;
    kmp_table(out, "abaababaab", 12)?;
    kmp_table(out, "abcabcacab", 12)?;
    kmp_table(out, "", 2)?;
    kmp_table_in_five(out, "abcab")?;
    kmp_table_in_five(out, "abca")
}

fn letter_tables(out: &mut Output) -> fmt::Result {
    sunday_table(out, "la", 96, 110)?;
    sunday_table(out, "la", 255, 257)?;
    sunday_table(out, "abcabcacab", 96, 110)?;
    sunday_table(out, "~", 125, 128)?;
    horspool_table(out, "la", 96, 110)?;
    horspool_table(out, "la", 255, 257)?;
    horspool_table(out, "abcabcacab", 96, 110)?;
    horspool_table(out, "~", 125, 128)?;
    letter_tables_in_255(out, "la")
}

fn delta1_tables(out: &mut Output) -> fmt::Result {
    delta1_table(out, "la", 96, 110)?;
    delta1_table(out, "la", 255, 257)?;
    delta1_table(out, "ABCXXXABC", 64, 90)?;
    delta1_table(out, "~", 125, 128)
}

// The two tables of source document 003 first; then patterns of one letter and of two, and one of eleven.
fn delta2_tables(out: &mut Output) -> fmt::Result {
    delta2_table(out, "ABCXXXABC", 10, 11)?;
    delta2_table(out, "ABYXCDEYX", 10, 11)?;
    delta2_table(out, "a", 2, 3)?;
    delta2_table(out, "aaaa", 5, 6)?;
    delta2_table(out, "baaa", 5, 6)?;
    delta2_table(out, "aaab", 5, 6)?;
    delta2_table(out, "abab", 5, 6)?;
    delta2_table(out, "badbacbacba", 12, 13)?;
    delta2_table(out, "", 1, 2)
}

// Just enough of both, one entry too few of either, and of both.
fn delta2_in_little(out: &mut Output) -> fmt::Result {
    delta2_table(out, "abca", 4, 5)?;
    delta2_table(out, "abca", 3, 5)?;
    delta2_table(out, "abca", 4, 4)?;
    delta2_table(out, "abca", 3, 4)?;
    delta2_table(out, "", 0, 1)?;
    delta2_table(out, "", 0, 0)
}

// Source document 001's pattern first; then one gap, equal gaps, no letter twice, and md above KMP_Shift at and below j - 1.
fn max_shift_tables(out: &mut Output) -> fmt::Result {
    max_shift_table(out, "abaaca", 15)?;
    max_shift_table(out, "a", 5)?;
    max_shift_table(out, "aaaa", 11)?;
    max_shift_table(out, "abab", 11)?;
    max_shift_table(out, "abcd", 11)?;
    max_shift_table(out, "abaab", 13)?;
    max_shift_table(out, "abababbbba", 23)?;
    max_shift_table(out, "", 3)
}

// Just enough, one entry too few, and room for the KMP entries alone.
fn max_shift_in_little(out: &mut Output) -> fmt::Result {
    max_shift_table(out, "abca", 10)?;
    max_shift_table(out, "abca", 9)?;
    max_shift_table(out, "abca", 5)?;
    max_shift_table(out, "", 2)?;
    max_shift_table(out, "", 1)
}

// The engine of a method number by its name.
fn name(method: u32) -> &'static str {
    match Method::try_from(method) {
        Ok(Method::Naive) => "naive",
        Ok(Method::Kmp) => "kmp",
        Ok(Method::Horspool) => "horspool",
        Ok(Method::Sunday) => "sunday",
        Ok(Method::Fjs) => "fjs",
        Ok(Method::DoubleWindow) => "double",
        Ok(Method::BoyerMoore) => "bm",
        Ok(Method::ImprovedFjs) => "improved",
        Err(_) => "unknown",
    }
}

// Ends a line with a find in a scratch of so many entries: the refusal, the total, the comparisons, and a list of four.
fn found(out: &mut Output, method: u32, pattern: &[u8], text: &[u8], room: usize) -> fmt::Result {
    let mut scratch = [9; 2306];
    let mut list = [9; 4];
    let scratch = &mut scratch[..room.min(2306)];
    let r = Finding::from(find::find(method, pattern, text, scratch, &mut list));
    let refusal = r.refusal;
    let total = r.total;
    let comparisons = r.comparisons;
    let places = Numbers { numbers: &list };
    writeln!(out, " {refusal} {total} {comparisons}{places}")
}

// A case of a few letters.
fn case(out: &mut Output, method: u32, pattern: &str, text: &str, room: usize) -> fmt::Result {
    let name = name(method);
    write!(out, "{name} {pattern} in {text} {room}")?;
    found(out, method, pattern.as_bytes(), text.as_bytes(), room)
}

// A case of m letters a in n letters a, with all the room there is.
fn limit(out: &mut Output, method: u32, m: usize, n: usize) -> fmt::Result {
    let pattern = [97; 1025];
    let text = [97; 32769];
    let name = name(method);
    write!(out, "{name} {m} {n}")?;
    found(
        out,
        method,
        &pattern[..m.min(1025)],
        &text[..n.min(32769)],
        2306,
    )
}

// One engine: the finder's example with just enough scratch, with one entry less and with no phrase; a refrain that overlaps itself; and the limits.
fn engine(out: &mut Output, method: u32, enough: usize) -> fmt::Result {
    case(out, method, "aba", "ababa", enough)?;
    if 0 < enough {
        case(out, method, "aba", "ababa", enough - 1)?;
    }
    case(out, method, "", "ababa", enough)?;
    case(out, method, "lalala", "lala lalalalala lala", 1281)?;
    case(out, method, "ababa", "aba", 1281)?;
    limit(out, method, 1024, 1030)?;
    limit(out, method, 1025, 1030)?;
    limit(out, method, 2, 32768)?;
    limit(out, method, 2, 32769)
}

fn engines(out: &mut Output) -> fmt::Result {
    engine(out, 0, 0)?;
    engine(out, 1, 4)?;
    engine(out, 2, 256)?;
    engine(out, 3, 256)?;
    engine(out, 4, 260)?;
    engine(out, 5, 256)?;
    engine(out, 6, 259)?;
    engine(out, 7, 264)?;
    case(out, 8, "aba", "ababa", 1281)
}

// Request (xii) of document 02: m - 1 letters a and a b in n letters a take 2n - m comparisons by KMP, m from 2 to n; one letter takes n.
fn kmp_bound(out: &mut Output) -> fmt::Result {
    case(out, 1, "aaab", "aaaaaaaa", 1281)?;
    case(out, 1, "aaab", "aaaa", 1281)?;
    case(out, 1, "ab", "aaaaaaaa", 1281)?;
    case(out, 1, "b", "aaaaaaaa", 1281)
}

// Request (ii) of document 02: the move of the text letter decides, that of the equal letters does, the letter's alone would go back; and after occurrences borders of 0, 1 and more letters.
fn boyer_moore(out: &mut Output) -> fmt::Result {
    case(out, 6, "aba", "abcaba", 1281)?;
    case(out, 6, "cabdab", "yyyydbcabdab", 1281)?;
    case(out, 6, "bba", "ababba", 1281)?;
    case(out, 6, "ab", "ababab", 1281)?;
    case(out, 6, "aabaa", "aabaabaa", 1281)?;
    case(out, 6, "aaaa", "aaaaaa", 1281)?;
    case(
        out,
        6,
        "AT-THAT",
        "WHICH-FINALLY-HALTS.--AT-THAT-POINT",
        1281,
    )
}

// Request (x) of document 02: figure 2 of source document 001; a move by md, by KMP's shift and by either after an occurrence; carried windows, whose move is KMP's; and no letter follows.
fn improved(out: &mut Output) -> fmt::Result {
    case(out, 7, "abaaca", "abababcababbbca", 1281)?;
    case(out, 7, "abca", "bbbabca", 1281)?;
    case(out, 7, "abaaca", "abaacbabaaca", 1281)?;
    case(out, 7, "abc", "abcabc", 1281)?;
    case(out, 7, "abca", "abcabca", 1281)?;
    case(out, 7, "aba", "abaaba", 1281)?;
    case(out, 7, "abaaca", "abaacababaaca", 1281)?;
    case(out, 7, "abaa", "abba", 1281)?;
    case(out, 7, "abaaca", "abaaaa", 1281)?;
    case(out, 7, "a", "cabcca", 1281)
}

// Request (i) of document 02: the line and the column of each place of a text, that of its end included.
fn lines(out: &mut Output, name: &str, text: &str) -> fmt::Result {
    write!(out, "lines{name}")?;
    for place in 0..=text.len() {
        let spot = line_column::line_column(text.as_bytes(), place, 0, 1, 1);
        let line = spot.line;
        let column = spot.column;
        write!(out, " {line} {column}")?;
    }
    writeln!(out)
}

// The line and the column of a place, where a line and a column are told of another: they count where that is not past this one.
fn known(out: &mut Output, place: usize, other: usize, line: u32, column: u32) -> fmt::Result {
    let spot = line_column::line_column(b"a\nb\r\nc\r", place, other, line, column);
    let at_line = spot.line;
    let at_column = spot.column;
    writeln!(
        out,
        "known a 10 b 13 10 c 13 {place} {other} {line} {column} {at_line} {at_column}"
    )
}

// A late cut of `la la la` for the phrase `la`, with the list of its places: the refusal, the total, and an answer of four.
fn cut(out: &mut Output, start: usize, end: usize, letters: &str) -> fmt::Result {
    let list = [0, 3, 6];
    let mut answer = [9; 4];
    let r = Answer::from(late_cuts::relist(
        b"la",
        b"la la la",
        &list,
        start,
        end,
        letters.as_bytes(),
        &mut answer,
    ));
    let refusal = r.refusal;
    let number = r.number;
    let places = Numbers { numbers: &answer };
    writeln!(
        out,
        "cut with {letters} {start} {end} {refusal} {number}{places}"
    )
}

// One place drops out, is found again, is split in two and joined; at either end; more places than the answer has; and a stretch that is refused.
fn cuts(out: &mut Output) -> fmt::Result {
    cut(out, 3, 5, "so")?;
    cut(out, 3, 5, "la")?;
    cut(out, 4, 4, "-")?;
    cut(out, 1, 7, "")?;
    cut(out, 0, 3, "")?;
    cut(out, 8, 8, " la")?;
    cut(out, 2, 6, " la la la ")?;
    cut(out, 5, 3, "")?;
    cut(out, 3, 9, "")
}

// Each kind of ending, between letters and at the text's end.
fn endings(out: &mut Output) -> fmt::Result {
    lines(out, "", "")?;
    lines(out, " a b", "ab")?;
    lines(out, " a 10 b", "a\nb")?;
    lines(out, " a 13 b", "a\rb")?;
    lines(out, " a 13 10 b", "a\r\nb")?;
    lines(out, " a 13 13 10 b", "a\r\r\nb")?;
    lines(out, " a 10 13 b", "a\n\rb")?;
    lines(out, " 13 10 13 10", "\r\n\r\n")?;
    lines(out, " a 10", "a\n")?;
    lines(out, " a 13", "a\r")?;
    lines(out, " a 13 10", "a\r\n")
}

// Told right and wrong, of the place itself, of one before it and of one past it; and places past the text's end.
fn places_told(out: &mut Output) -> fmt::Result {
    known(out, 3, 0, 1, 1)?;
    known(out, 3, 2, 2, 1)?;
    known(out, 4, 4, 2, 3)?;
    known(out, 5, 4, 2, 3)?;
    known(out, 5, 4, 9, 9)?;
    known(out, 4, 3, 9, 9)?;
    known(out, 6, 7, 9, 9)?;
    known(out, 7, 6, 3, 2)?;
    known(out, 9, 2, 2, 1)?;
    known(out, 9, 8, 5, 5)
}

// A letter folded by a page: the refusal, and the number.
fn fold_letter(out: &mut Output, page: u32, letter: u8) -> fmt::Result {
    let r = Answer::from(fold::letter(page, letter).map(u32::from));
    let refusal = r.refusal;
    let number = r.number;
    writeln!(out, "fold {page} {letter} {refusal} {number}")
}

// Page 1's starred letters, the pairs of page 15 with some that it shares with page 1, and pages that there are not.
fn folds(out: &mut Output) -> fmt::Result {
    for letter in [0xC9, 0xD7, 0xDF, 0xFF, 0xBC] {
        fold_letter(out, 1, letter)?;
    }
    for letter in [
        0xA6, 0xA8, 0xB4, 0xB8, 0xBC, 0xBD, 0xBE, 0xFF, 0xC9, 0xD7, 0xDF,
    ] {
        fold_letter(out, 15, letter)?;
    }
    for page in [0, 2, 16] {
        fold_letter(out, page, 0xC9)?;
    }
    Ok(())
}

fn cases(out: &mut Output) -> fmt::Result {
    tables(out)?;
    letter_tables(out)?;
    delta1_tables(out)?;
    delta2_tables(out)?;
    delta2_in_little(out)?;
    max_shift_tables(out)?;
    max_shift_in_little(out)?;
    engines(out)?;
    kmp_bound(out)?;
    boyer_moore(out)?;
    improved(out)?;
    cuts(out)?;
    endings(out)?;
    places_told(out)?;
    folds(out)
}

fn main() {
    let _ = cases(&mut Output);
}
