// The improved FJS engine (source document 001, Algorithm 6): where nothing is carried it looks at the letter with the widest gap first, and moves on by MAX_Shift instead of KMP's shift.
// It depends on `matching`, and on `tables`, `letter_tables` and `border_tables` for the gap and the entries.
// FJS's bound of 3n - 2m comparisons is not promised of it: it looks at one letter of a window twice.
#![tactic(auto)]

ghost use Rattle.std.specs.Prelude.{◌≡◌, ◌+◌, ◌≤◌, length};
ghost use Rattle.letter_tables.specs.Gaps.{widest_gap};
ghost use Rattle.matching.specs.Letters.{reach};
ghost use Rattle.matching.specs.Received.{received};
ghost use Rattle.matching.specs.Find.{Found};
ghost use Rattle.matching.specs.Results.{finding};
ghost use Rattle.improved_fjs.specs.ImprovedFjs.{improved_fjs};
ghost use Rattle.improved_fjs.specs.Search.{Ready, Searched};

use letter_tables::Gap;
use matching::{Refusal, Tally};

// Makes the three tables: the scratch's first 256 entries are lent to the Sunday maker and the part from 256 on to the maker of the KMP entries and MAX_Shift, which hands the widest gap back.
fn make_tables(pattern: &[u8], scratch: &mut [u16]) -> Gap
    requires short { length pattern.now ≤ 1024 }
    requires room { 256 + ((length pattern.now + 1) + (length pattern.now + 1)) ≤ length scratch.old }
    ensures gap { result ≡ widest_gap pattern.now }
    ensures made { scratch.new ≡ received scratch.old (improved_fjs.tables pattern.now) }
{
    letter_tables::sunday_table(pattern, &mut scratch[..256]);
    border_tables::max_shift_table(pattern, &mut scratch[256..])
}

// How many letters of the window at s are equal from its start on, where its first q are carried. Tried: `matching::compare_up`, which is handed the letters that are left. It takes up to half as long
// again here, since where they begin and how many they are is computed for each window.
fn reach(pattern: &[u8], text: &[u8], s: usize, q: usize) -> usize
    requires inside { s + length pattern.now ≤ length text.now }
    requires part { q ≤ length pattern.now }
    ensures value { result ≡ reach pattern.now text.now s q }
    ensures from { q ≤ result }
    ensures within { result ≤ length pattern.now }
{
    for k in q..pattern.len() {
        if pattern[k] != text[s + k] {
            return k;
        }
    }
    pattern.len()
}

// Finds all occurrences. The window starts at s, its first q letters are carried, and letter mdp stands at the place `gap` of the pattern.
fn search(pattern: &[u8], text: &[u8], scratch: &[u16], gap: usize, list: &mut [u32]) -> Tally
    requires { Ready pattern.now text.now scratch.now gap }
    ensures { Searched pattern.now text.now list.old result list.new }
{
    let m = pattern.len();
    let n = text.len();
    let first = pattern[gap];
    let mut total = 0;
    let mut compared = 0;
    let mut s = 0;
    let mut q = 0;
    while s + m <= n {
        if q == 0 {
            compared += 1; // the look at letter mdp
            if first != text[s + gap] {
                if n <= s + m {
                    break;
                }
                s += scratch[text[s + m] as usize] as usize;
                continue;
            }
        }
        let k = reach(pattern, text, s, q);
        compared += k - q;
        if k < m {
            compared += 1;
        } else {
            matching::store(list, total, s as u32);
            total += 1;
        }
        let shift = if 0 < q {
            k + 1 - scratch[256 + k] as usize // KMP_Shift
        } else {
            scratch[256 + (m + 1) + k] as usize // MAX_Shift
        };
        s += shift;
        q = k.saturating_sub(shift);
    }
    Tally {
        total: total as u32,
        comparisons: compared as u32,
    }
}

// Finds the pattern in the text; the scratch holds 256 Sunday entries, the KMP entries b[1] to b[m + 1] and MAX_Shift[1] to MAX_Shift[m + 1] afterwards.
// The compiler keeps it by itself: as a part of one function with the other engines its loop has too few registers.
#[inline(never)]
pub fn find(
    pattern: &[u8],
    text: &[u8],
    scratch: &mut [u16],
    list: &mut [u32],
) -> Result<Tally, Refusal>
    ensures { Found improved_fjs pattern.now text.now scratch.old list.old (finding result) scratch.new list.new }
{
    let m = pattern.len();
    let tabled = m.min(1024); // a longer pattern is refused whatever scratch it would need
    matching::refused(
        m,
        text.len(),
        scratch.len(),
        256 + (tabled + 1 + (tabled + 1)),
    )?;
    let widest = make_tables(pattern, scratch);
    Ok(search(pattern, text, scratch, widest.letter - 1, list))
}
