// The tables by the suffixes of a pattern: Boyer-Moore's DELTA2, and the borders of the suffixes, in which its maker works. Each maker writes only its own entries into lent memory of
// 16-bit numbers. It depends on `tables`, and on `matching` for what an occurrence is. Engines know DELTA2 by its rule alone (specs/), and prove their skips from the laws that
// stand beside it (proofs/Moves.antt). A table too short, or a pattern so long that an entry could pass 16 bits, leaves everything as before.
#![tactic(auto)]

ghost use Rattle.std.specs.Prelude.{◌≡◌, ◌+◌, ◌≤◌, length};
ghost use Rattle.tables.specs.Tables.{Entries};
ghost use Rattle.suffix_tables.specs.Suffixes.{suffix_entry, suffix_made};
ghost use Rattle.suffix_tables.specs.Delta2.{delta2_made, borders_made};
ghost use Rattle.suffix_tables.specs.Passes.{Settled};

// The borders of the suffixes, f(0) to f(m), at the table's front, as source document 002, Algorithm 4, finds them: KMP's table maker from the other end.
// Linear in m: a turn of the outer loop lowers t by 1, and a turn of the inner loop raises it, to m + 1 at most; so the inner loop makes at most m turns in all.
fn suffix_table(pattern: &[u8], table: &mut [u16])
    ensures { table.new ≡ suffix_made pattern.now table.old }
{
    let m = pattern.len();
    if table.len() <= m || 65534 < m {
        return;
    }
    let mut t = m + 1;
    table[m] = t as u16;
    for s in (0..m).rev() {
        while t <= m && pattern[t - 1] != pattern[s] {
            t = table[t] as usize;
        }
        t -= 1;
        table[s] = t as u16;
    }
}

// The entries of the places q whose following letters stand again behind no other letter: by the next place k after q whose letters stand at the pattern's front.
// Linear in m: one turn a place.
fn prefix_entries(pattern: &[u8], borders: &[u16], table: &mut [u16])
    requires { Entries 0 (length pattern.now + 1) (suffix_entry pattern.now) borders.now × ((length pattern.now ≤ length table.old) × (length pattern.now ≤ 32768)) }
    ensures { Settled pattern.now (length pattern.now) 0 table.old table.new }
{
    let m = pattern.len();
    let mut k = 0;
    for q in 0..m {
        if k <= q {
            k = borders[k] as usize;
        }
        table[q] = (k + m - 1 - q) as u16;
    }
}

// All others: for each place r, those of the places t - 1 whose following letters stand again after r, behind another letter; what the last r gives stays. Letter t - 1 differs from letter r as
// long as t is at most f(r), since else f(r) would be smaller; so no letter is read again.
// Linear in m: a turn of the inner loop raises t, from f(r + 1) to at most f(r) + 1; so for all places it makes at most f(0) + m - f(m) turns, which is below m.
fn suffix_entries(pattern: &[u8], borders: &[u16], table: &mut [u16])
    requires { Entries 0 (length pattern.now + 1) (suffix_entry pattern.now) borders.now × (Settled pattern.now (length pattern.now) 0 table.old table.old × (length pattern.now ≤ 32768)) }
    ensures { Settled pattern.now (length pattern.now) (length pattern.now) table.old table.new }
{
    let m = pattern.len();
    for r in 0..m {
        let end = borders[r] as usize;
        let value = (m - 1 - r) as u16;
        let mut t = borders[r + 1] as usize;
        while t <= end {
            table[t - 1] = value;
            t = borders[t] as usize;
        }
    }
}

// The DELTA2 entries of 1 to m at the table's front. The borders of the suffixes stand at the front of `borders` afterwards; the maker is lent that memory, so that it has a limit of no
// other kind than the other makers; too little of either leaves both as before. Linear in m: three passes, each of which is.
pub fn delta2_table(pattern: &[u8], borders: &mut [u16], table: &mut [u16])
    ensures { (borders.new ≡ borders_made pattern.now (length table.old) borders.old) × (table.new ≡ delta2_made pattern.now (length borders.old) table.old) }
{
    let m = pattern.len();
    if table.len() < m || 32768 < m {
        return;
    }
    suffix_table(pattern, borders);
    if borders.len() <= m {
        return;
    }
    prefix_entries(pattern, borders, table);
    suffix_entries(pattern, borders, table);
}
