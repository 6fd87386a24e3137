// The double window engine: move by two text letters, u under the window's end and v one window on; where that move is 0, which is where u is the pattern's last letter,
// compare letters m - 1 down to 1 and move by Horspool's entry. It depends on `matching`, on `tables` for what is known of a table in the scratch, and on `letter_tables` for
// Horspool's entries and the rule of the move by two letters, which is read off them.
#![tactic(auto)]

ghost use Rattle.std.specs.Prelude.{◌≡◌, ◌+◌, ◌-◌, ◌≤◌, length, get_or};
ghost use Rattle.matching.specs.Find.{Found};
ghost use Rattle.matching.specs.Results.{finding};
ghost use Rattle.tables.specs.Tables.{Entries};
ghost use Rattle.letter_tables.specs.BadCharacter.{horspool_entry};
ghost use Rattle.double_window.specs.DoubleWindow.{under, jump, double_window};

use matching::{Refusal, Tally};

// The move of the window at s by u and v, where u is not the pattern's last letter. Horspool's entry says where u stands in the pattern, and m says that u is absent: then
// v moves the window further, by m and its own entry, or by m alone where v is the last letter.
fn jump(pattern: &[u8], text: &[u8], entries: &[u16], last: u8, s: usize, u: u8) -> usize
    requires in_bounds { (1 ≤ length pattern.now) × ((s + length pattern.now ≤ length text.now) × (length text.now ≤ 32768)) }
    requires last_value { (last ≡ get_or pattern.now (length pattern.now - 1) 0) × Entries 0 256 (horspool_entry pattern.now) entries.now }
    requires u_value { (u ≡ under pattern.now text.now s) × (last ≡ u → ⊥) }
    ensures { result ≡ jump pattern.now text.now s }
{
    let m = pattern.len();
    let by_u = entries[u as usize] as usize;
    if by_u < m {
        return by_u;
    }
    let further = s + 2 * m - 1;
    if text.len() <= further {
        return by_u;
    }
    let v = text[further];
    if v == last {
        return m;
    }
    m + entries[v as usize] as usize
}

// Finds the pattern in the text; the scratch holds the 256 Horspool entries afterwards.
pub fn find(
    pattern: &[u8],
    text: &[u8],
    scratch: &mut [u16],
    list: &mut [u32],
) -> Result<Tally, Refusal>
    ensures { Found double_window pattern.now text.now scratch.old list.old (finding result) scratch.new list.new }
{
    let m = pattern.len();
    let n = text.len();
    matching::refused(m, n, scratch.len(), 256)?;
    letter_tables::horspool_table(pattern, scratch);
    let end = m - 1;
    let last = pattern[end];
    let after = scratch[last as usize] as usize; // Horspool's move, wherever u is the last letter
    let mut total = 0;
    let mut compared = 0;
    let mut s = 0;
    while s + m <= n {
        let u = text[s + end];
        if u == last {
            let k = matching::compare_down(pattern, text, s, end);
            compared += k;
            if k < end {
                compared += 1;
            } else {
                matching::store(list, total, s as u32);
                total += 1;
            }
            s += after;
        } else {
            s += jump(pattern, text, scratch, last, s, u);
        }
    }
    Ok(Tally {
        total: total as u32,
        comparisons: compared as u32,
    })
}
