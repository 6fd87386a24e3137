// The tables by borders: the makers of KMP's and of MAX_Shift, which write only their own entries into a lent table of 16-bit numbers; and the move by the longest proper border, which has none.
// It depends on `tables`, on `letter_tables` for the widest gap, and on `matching` for what an occurrence and a move are. Engines know a table by its rule alone (specs/), and prove their
// skips from the laws that stand beside it (proofs/Moves.antt). A table too short, or a pattern so long that an entry could pass 16 bits, leaves everything as before.
#![tactic(auto)]

ghost use Rattle.std.specs.Prelude.{◌≡◌};
ghost use Rattle.letter_tables.specs.Gaps.{gap_found};
ghost use Rattle.border_tables.specs.Kmp.{kmp_made};
ghost use Rattle.border_tables.specs.MaxShift.{max_shift_made};

use letter_tables::Gap;

// The KMP entries b[1] to b[m + 1] at the table's front, as source document 001, Algorithm 1, which holds j - b[j] in place of b[j].
// Linear in m: a turn of the outer loop raises j by 1, and a turn of the inner loop lowers it, since b[j] is below j; so the inner loop makes
// fewer than m turns in all.
pub fn kmp_table(pattern: &[u8], table: &mut [u16])
    ensures { table.new ≡ kmp_made pattern.now table.old }
{
    let m = pattern.len();
    if table.len() <= m || 65535 < m {
        return;
    }
    table[0] = 0;
    let mut j = 0;
    for (q, c) in pattern.iter().enumerate() {
        while 0 < j && pattern[j - 1] != *c {
            j = table[j - 1] as usize;
        }
        j += 1;
        table[q + 1] = if q + 1 < m && pattern[q + 1] == pattern[j - 1] {
            table[j - 1]
        } else {
            j as u16
        };
    }
}

// The KMP entries at the table's front, and MAX_Shift[1] to MAX_Shift[m + 1] after them (source document 001, Algorithm 5). The widest gap, which it has to find for them, is handed back.
// Linear in m: the KMP table, the gap, and one turn a shift.
pub fn max_shift_table(pattern: &[u8], table: &mut [u16]) -> Gap
    ensures { (result ≡ gap_found pattern.now) × (table.new ≡ max_shift_made pattern.now table.old) }
{
    let m = pattern.len();
    let n = m + 1; // so many entries has each of the two tables
    let widest = letter_tables::widest_gap(pattern);
    if 65535 < m || table.len() < n + n {
        return widest;
    }
    kmp_table(pattern, table);
    let md = widest.width as u16;
    for q in 0..n {
        let equal = q as u16; // as many letters are equal before letter j
        let shift = equal - table[q] + 1;
        let wide = shift <= md && equal <= md;
        table[n + q] = if wide { md } else { shift };
    }
    widest
}
