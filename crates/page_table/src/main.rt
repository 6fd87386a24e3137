// This program prints the 256 entries of page 15's fold from its rule (document 02, (iv)): sixteen to a line, in decimal, one space between, each line ended by byte 10.
// It does not look at the table of `fold`: the gate holds the two together, number by number.
// It depends on `fold` for page 1's letters and the rule, on `pieces` and `finder_lines` to lay the numbers out, and on `io` to write.
#![tactic(auto)]

ghost use Rattle.std.specs.Prelude.{◌≡◌, ◌∷◌, []};
ghost use Rattle.fold.specs.Fold.{folded15};
ghost use Rattle.finder_lines.specs.Lines.{decimal};
ghost use Rattle.pieces.specs.Pieces.{Laid, put, put_all};
ghost use Rattle.page_table.specs.Entries.{after, entries};

// What a letter folds to: by the four pairs that page 15 has besides, and else as on page 1.
#[tactic(auto, unfolding(fold::specs::Fold::folded15, fold::specs::Fold::paired))]
fn entry(letter: u8) -> u8
    ensures { result ≡ folded15 letter }
{
    match letter {
        0xA6 => 0xA8,
        0xB4 => 0xB8,
        0xBC => 0xBD,
        0xBE => 0xFF,
        _ => fold::on_page_1(letter),
    }
}

// Puts the decimal digits of a number: its field without the space.
fn put_digits(output: &mut [u8], at: usize, value: u8) -> usize
    ensures { Laid output.new result (put output.old at (decimal value)) }
{
    let mut field = [0; 4];
    let end = finder_lines::put_number(&mut field, 0, value as u32);
    pieces::put_bytes(output, at, &field[1..end])
}

// Puts what follows the entry of a letter.
#[tactic(auto, unfolding(crate::specs::Entries::after))]
fn put_after(output: &mut [u8], at: usize, letter: u32) -> usize
    ensures { Laid output.new result (put output.old at (after letter ∷ [])) }
{
    if letter % 16 == 15 {
        return pieces::put_bytes(output, at, b"\n");
    }
    pieces::put_bytes(output, at, b" ")
}

// Puts all entries, and gives how many bytes they have.
fn put_entries(output: &mut [u8]) -> usize
    ensures { Laid output.new result (put_all output.old 0 (entries 256)) }
{
    let mut at = 0;
    for letter in 0..256 {
        at = put_digits(output, at, entry(letter as u8));
        at = put_after(output, at, letter);
    }
    at
}

// An entry takes at most three digits and what follows.
fn main() {
    let mut output = [0; 1024];
    let length = put_entries(&mut output);
    io::write_all(1, &output[..length]);
}
