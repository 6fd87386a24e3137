// The tables by the last positions of letters, Sunday's, Horspool's and DELTA1: three makers, each writing only its own entries into a lent table of 16-bit numbers; and the widest gap.
// It depends on `tables`, and on `matching` for what an occurrence and a move are. Engines know a table by its rule alone (specs/), and prove their skips from
// the laws that stand beside it (proofs/Moves.antt). A table too short, or a pattern so long that an entry could pass 16 bits, leaves everything as before.
#![tactic(auto)]

ghost use Rattle.std.specs.Prelude.{◌≡◌, ◌≤◌, length};
ghost use Rattle.tables.specs.Tables.{made};
ghost use Rattle.letter_tables.specs.BadCharacter.{last_table, sunday_made, horspool_made, delta1_made};
ghost use Rattle.letter_tables.specs.Gaps.{gap_found};

// A gap between a letter and the same letter before it: its width, and the position of the later letter, from 1.
// Kept: 0 at 0 stands for none, and not an Option, since `gap_found` in the contracts of `widest_gap` and of `border_tables::max_shift_table` says so.
#[derive(Clone, Copy)]
pub struct Gap {
    pub width: usize,
    pub letter: usize,
}

// Sets 256 entries: `base` less the last position of each letter among the pattern's first `count`. Where the table has no room for them, or the base does not fit 16 bits, all stays as before.
fn fill(pattern: &[u8], base: usize, count: usize, table: &mut [u16])
    requires { (count ≤ length pattern.now) × (count ≤ base) }
    ensures { table.new ≡ made base (last_table pattern.now base count) table.old }
{
    if table.len() < 256 || 65535 < base {
        return;
    }
    tables::set_all(&mut table[..256], base as u16);
    for (q, letter) in pattern[..count].iter().enumerate() {
        table[*letter as usize] = (base - 1 - q) as u16;
    }
}

// The Sunday entries, one a letter, at the table's front.
pub fn sunday_table(pattern: &[u8], table: &mut [u16])
    ensures { table.new ≡ sunday_made pattern.now table.old }
{
    let m = pattern.len();
    fill(pattern, m + 1, m, table)
}

// The Horspool entries, one a letter, at the table's front.
pub fn horspool_table(pattern: &[u8], table: &mut [u16])
    ensures { table.new ≡ horspool_made pattern.now table.old }
{
    let m = pattern.len();
    fill(pattern, m, m.saturating_sub(1), table)
}

// Boyer-Moore's DELTA1 entries, one a letter, at the table's front.
pub fn delta1_table(pattern: &[u8], table: &mut [u16])
    ensures { table.new ≡ delta1_made pattern.now table.old }
{
    let m = pattern.len();
    fill(pattern, m, m, table)
}

// The widest gap of the pattern, the last of those that are as wide (source document 001, Algorithm 4); 0 at 0 where there is none, or where a position could pass 16 bits.
// `before` has the last position of each letter so far, 0 if there is none. Linear in m: one turn a letter.
pub fn widest_gap(pattern: &[u8]) -> Gap
    ensures { result ≡ gap_found pattern.now }
{
    let mut widest = Gap {
        width: 0,
        letter: 0,
    };
    if 65535 < pattern.len() {
        return widest;
    }
    let mut before: [u16; 256] = [0; 256];
    for (q, letter) in pattern.iter().enumerate() {
        let c = *letter as usize;
        let gap = q + 1 - before[c] as usize;
        if widest.width <= gap {
            widest = Gap {
                width: gap,
                letter: q + 1,
            };
        }
        before[c] = (q + 1) as u16;
    }
    widest
}
