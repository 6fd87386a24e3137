// Horspool's engine: last letter to first, then move by the entry of the text letter under the pattern's end. It depends on `matching`, and on `tables` and
// `letter_tables` for the entries.
#![tactic(auto)]

ghost use Rattle.matching.specs.Find.{Found};
ghost use Rattle.matching.specs.Results.{finding};
ghost use Rattle.horspool.specs.Horspool.{horspool};

use matching::{Refusal, Tally};

// Finds the pattern in the text; the scratch's first 256 entries are Horspool's afterwards.
pub fn find(
    pattern: &[u8],
    text: &[u8],
    scratch: &mut [u16],
    list: &mut [u32],
) -> Result<Tally, Refusal>
    ensures { Found horspool pattern.now text.now scratch.old list.old (finding result) scratch.new list.new }
{
    let m = pattern.len();
    let n = text.len();
    matching::refused(m, n, scratch.len(), 256)?;
    letter_tables::horspool_table(pattern, scratch);
    let end = m - 1;
    let mut total = 0;
    let mut compared = 0;
    let mut s = 0;
    while s + m <= n {
        let k = matching::compare_down(pattern, text, s, m);
        compared += k;
        if k < m {
            compared += 1;
        } else {
            matching::store(list, total, s as u32);
            total += 1;
        }
        s += scratch[text[s + end] as usize] as usize;
    }
    Ok(Tally {
        total: total as u32,
        comparisons: compared as u32,
    })
}
