// The layout of the finder's lines: numbers and whole lines, laid out one after another in a lent buffer.
// It depends on `pieces`, by which a piece that does not fit is left out, whole, and on `matching` for case analysis.
// A buffer and the place of its next piece stay two parameters everywhere: the public `pieces::put_bytes`, which may not change, takes and gives them so.
#![tactic(auto)]

ghost use Rattle.pieces.specs.Pieces.{Laid, put, put_all};
ghost use Rattle.finder_lines.specs.Lines.{field, fields, line_of, refused_line};

// Puts a number's field, a space and its decimal digits, which are found from the last to the first, in an array that holds the space before any of them.
// The digits are found here: `write!` does not promise that it succeeds, even where there is room, so no proof would know what it left.
pub fn put_number(buffer: &mut [u8], at: usize, value: u32) -> usize
    ensures { Laid buffer.new result (put buffer.old at (field value)) }
{
    let mut digits = [b' '; 11];
    let mut first = 10;
    let mut rest = value;
    while 10 <= rest {
        digits[first] = b'0' + (rest % 10) as u8;
        first -= 1;
        rest /= 10;
    }
    digits[first] = b'0' + rest as u8;
    pieces::put_bytes(buffer, at, &digits[first - 1..])
}

// Puts the fields of the first `count` numbers of a list.
fn put_numbers(buffer: &mut [u8], at: usize, list: &[u32], count: usize) -> usize
    ensures { Laid buffer.new result (put_all buffer.old at (fields count list.now)) }
{
    let mut next = at;
    for number in &list[..count.min(list.len())] {
        next = put_number(buffer, next, *number);
    }
    next
}

// Puts an engine's line: its name, the total, the comparisons, and the places in the list, up to the total.
pub fn put_line(
    buffer: &mut [u8],
    at: usize,
    name: &[u8],
    total: u32,
    comparisons: u32,
    list: &[u32],
) -> usize
    ensures { Laid buffer.new result (put_all buffer.old at (line_of name.now total comparisons list.now)) }
{
    let next = pieces::put_bytes(buffer, at, name);
    let next = put_number(buffer, next, total);
    let next = put_number(buffer, next, comparisons);
    let next = put_numbers(buffer, next, list, total as usize);
    pieces::put_bytes(buffer, next, b"\n")
}

// Puts the line of a refusal.
pub fn put_refused(buffer: &mut [u8], at: usize, number: u32) -> usize
    ensures { Laid buffer.new result (put_all buffer.old at (refused_line number)) }
{
    let next = pieces::put_bytes(buffer, at, b"refused");
    let next = put_number(buffer, next, number);
    pieces::put_bytes(buffer, next, b"\n")
}
