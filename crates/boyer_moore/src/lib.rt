// Boyer-Moore's engine (source document 002, Algorithm 5): last letter to first; on a mismatch the text pointer moves by the larger of DELTA1 and DELTA2, after an occurrence the pattern moves by
// m less its longest proper border. It depends on `matching`, on `tables`, and on `letter_tables`, `border_tables` and `suffix_tables` for DELTA1, the border and DELTA2.
#![tactic(auto)]

ghost use Rattle.std.specs.Prelude.{◌≡◌, ◌+◌, ◌-◌, ◌≤◌, ◌<◌, length};
ghost use Rattle.matching.specs.Received.{received};
ghost use Rattle.matching.specs.Find.{Found};
ghost use Rattle.matching.specs.Results.{finding};
ghost use Rattle.suffix_tables.specs.Delta2.{delta2_made};
ghost use Rattle.boyer_moore.specs.BoyerMoore.{larger, boyer_moore};
ghost use Rattle.boyer_moore.specs.Made.{Made};

use matching::{Refusal, Tally};

// Makes DELTA2 in memory of the stack for the borders, ROOM entries, which are cleared first.
fn make_delta2<const ROOM: usize>(pattern: &[u8], table: &mut [u16])
    requires { ROOM ≤ 1025 }
    ensures { table.new ≡ delta2_made pattern.now ROOM table.old }
{
    let mut borders = [0; ROOM];
    suffix_tables::delta2_table(pattern, &mut borders, table);
}

// Makes both tables: the scratch's first 256 entries are lent to the DELTA1 maker and the part from 256 on to the DELTA2 maker. That one works in 2,050 bytes or, for a short pattern, in 130, which
// are sooner cleared.
fn make_tables(pattern: &[u8], scratch: &mut [u16])
    requires short { length pattern.now ≤ 1024 }
    requires room { 256 + length pattern.now ≤ length scratch.old }
    ensures left { scratch.new ≡ received scratch.old (boyer_moore.tables pattern.now) }
    ensures made { Made pattern.now scratch.new }
{
    letter_tables::delta1_table(pattern, &mut scratch[..256]);
    if pattern.len() <= 64 {
        make_delta2::<65>(pattern, &mut scratch[256..]);
    } else {
        make_delta2::<1025>(pattern, &mut scratch[256..]);
    }
}

// The larger of DELTA1 and DELTA2 for the window at s, where the last k letters are equal and the one before them is not.
fn larger(pattern: &[u8], text: &[u8], scratch: &[u16], s: usize, k: usize) -> usize
    requires part { k < length pattern.now }
    requires inside { s + length pattern.now ≤ length text.now }
    requires small { length text.now ≤ 32768 }
    requires made { Made pattern.now scratch.now }
    ensures value { result ≡ larger pattern.now text.now s (length pattern.now - k) }
    ensures past { k < result }
    ensures most { result ≤ 65535 }
{
    let q = pattern.len() - 1 - k;
    let by_letter = scratch[text[s + q] as usize] as usize;
    let by_place = scratch[256 + q] as usize;
    by_letter.max(by_place)
}

// Finds the pattern in the text; the scratch holds 256 DELTA1 entries and then DELTA2 of 1 to m afterwards.
// The compiler keeps it by itself: as a part of one function with the other engines its loop has too few registers.
#[inline(never)]
pub fn find(
    pattern: &[u8],
    text: &[u8],
    scratch: &mut [u16],
    list: &mut [u32],
) -> Result<Tally, Refusal>
    ensures { Found boyer_moore pattern.now text.now scratch.old list.old (finding result) scratch.new list.new }
{
    let m = pattern.len();
    let n = text.len();
    matching::refused(m, n, scratch.len(), 256 + m)?;
    make_tables(pattern, scratch);
    let end = m - 1;
    let last = pattern[end];
    let after = scratch[256] as usize - end; // m less the longest proper border, by DELTA2(1)
    let mut total = 0;
    let mut compared = 0;
    let mut s = 0;
    while s + m <= n {
        let u = text[s + end];
        let shift = if u == last {
            let k = 1 + matching::compare_down(pattern, text, s, end);
            compared += k;
            if k < m {
                compared += 1;
                larger(pattern, text, scratch, s, k) - k
            } else {
                matching::store(list, total, s as u32);
                total += 1;
                after
            }
        } else {
            compared += 1;
            scratch[u as usize] as usize // DELTA1: at the last letter it is never below DELTA2
        };
        s += shift;
    }
    Ok(Tally {
        total: total as u32,
        comparisons: compared as u32,
    })
}
