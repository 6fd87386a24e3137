// The line rule (document 02, (i)): which line of a text a place stands in, and at which column. A line ends at 10, at 13, or at the pair 13 10 taken as one ending.
// It depends on `matching` for case analysis alone. The rule is one definition, `line_column`, and one function, so that another rule can take its place.
#![tactic(auto)]

ghost use Rattle.std.specs.Prelude.{◌≡◌, ◌+◌, ◌-◌, ◌≤◌, ◌<◌, length, get_or};
ghost use Rattle.line_column.specs.LineColumn.{ends_line, ends_before, line_start, line_column_on, line_column_from};

// A line and a column, both from 1.
#[derive(Clone, Copy)]
pub struct LineColumn {
    pub line: usize,
    pub column: usize,
}

// Whether a line ends with the byte `here`, which `next` follows: at 10, and at 13 that is not the first byte of a pair 13 10.
#[tactic(auto, unfolding(crate::specs::LineColumn::ends_line, crate::specs::LineColumn::is_pair, crate::specs::LineColumn::is_ending))]
fn ends_line(here: u8, next: u8) -> bool
    ensures { result ≡ ends_line here next }
{
    here == 10 || (here == 13 && next != 10)
}

// The byte at a place; 0 past the text's end, which makes no pair with a 13 before it.
fn byte_at(text: &[u8], place: usize) -> u8
    ensures { result ≡ get_or text.now place 0 }
{
    text.get(place).copied().unwrap_or(0)
}

// How many of the bytes from `start` up to `stop` end a line. They are at most 192, so that a byte holds the count and the compiler counts sixteen of them at a time; the byte at `stop` is in
// the text, so that each of them has one after it.
#[tactic(auto, using(crate::proofs::Endings::ended_at, crate::proofs::Endings::ended_not))]
fn count_block(text: &[u8], start: usize, stop: usize) -> u8
    requires { (start ≤ stop) × ((stop ≤ start + 192) × (stop < length text.now)) }
    ensures counted { ends_before text.now stop ≡ ends_before text.now start + result }
    ensures few { start + result ≤ stop }
{
    let mut count = 0;
    for i in start..stop {
        if ends_line(text[i], text[i + 1]) {
            count += 1;
        }
    }
    count
}

// How many of the bytes from `start` up to `end` end a line, block by block. The last of them is looked at by itself, since the text may end there. A whole block has a call of its own, since the
// compiler then knows its length: a stop that is told by `min` took a third more time.
#[tactic(auto, using(crate::proofs::Endings::ended_at, crate::proofs::Endings::ended_not))]
fn count_breaks(text: &[u8], start: usize, end: usize) -> usize
    requires { (start ≤ end) × (end ≤ length text.now) }
    ensures counted { ends_before text.now end ≡ ends_before text.now start + result }
    ensures few { start + result ≤ end }
{
    if start == end {
        return 0;
    }
    let last = end - 1;
    let mut count = 0;
    for i in (start..last).step_by(192) {
        let block = if i + 192 <= last {
            count_block(text, i, i + 192)
        } else {
            count_block(text, i, last)
        };
        count += usize::from(block);
    }
    if ends_line(text[last], byte_at(text, end)) {
        count += 1;
    }
    count
}

// How many bytes stand after the last line end among the first `end`: it looks back from there.
#[tactic(auto, using(crate::proofs::Endings::started_at, crate::proofs::Endings::started_not, crate::proofs::Endings::started_none))]
fn count_back(text: &[u8], end: usize) -> usize
    requires { end ≤ length text.now }
    ensures { result ≡ end - line_start text.now end }
{
    let mut next = byte_at(text, end);
    for start in (0..end).rev() {
        let here = text[start];
        if ends_line(here, next) {
            return end - 1 - start;
        }
        next = here;
    }
    end
}

// The line and the column of a place in the text, told those of one at or before it: the bytes between the two are all that is looked at.
#[tactic(auto, using(crate::proofs::Lines::counted_some, crate::proofs::Lines::counted_none))]
fn count_on(text: &[u8], start: usize, line: u32, column: u32, end: usize) -> LineColumn
    requires { (start ≤ end) × (end ≤ length text.now) }
    ensures { result ≡ line_column_on text.now start line column end }
{
    let count = count_breaks(text, start, end);
    let line = line as usize + count;
    let column = if 0 < count {
        count_back(text, end) + 1
    } else {
        column as usize + (end - start)
    };
    LineColumn { line, column }
}

// The line and the column of a place; a place past the text's end has those of the end. They are counted on from another place, told its own, or from the text's start if this one is before it.
#[tactic(auto, using(crate::proofs::Lines::from_known))]
pub fn line_column(text: &[u8], place: usize, known: usize, line: u32, column: u32) -> LineColumn
    ensures { result ≡ line_column_from text.now known line column place }
{
    let end = place.min(text.len());
    if end < known {
        return count_on(text, 0, 1, 1, end);
    }
    count_on(text, known, line, column, end)
}
