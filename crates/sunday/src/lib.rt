// Sunday's engine: left to right, then move by the entry of the text letter after the window; if there is none, stop. It depends on `matching`, and on
// `tables` and `letter_tables` for the entries.
#![tactic(auto)]

ghost use Rattle.matching.specs.Find.{Found};
ghost use Rattle.matching.specs.Results.{finding};
ghost use Rattle.sunday.specs.Sunday.{sunday};

use matching::{Refusal, Tally};

// Finds the pattern in the text; the scratch's first 256 entries are Sunday's afterwards.
pub fn find(
    pattern: &[u8],
    text: &[u8],
    scratch: &mut [u16],
    list: &mut [u32],
) -> Result<Tally, Refusal>
    ensures { Found sunday pattern.now text.now scratch.old list.old (finding result) scratch.new list.new }
{
    let m = pattern.len();
    let n = text.len();
    matching::refused(m, n, scratch.len(), 256)?;
    letter_tables::sunday_table(pattern, scratch);
    let mut total = 0;
    let mut compared = 0;
    let mut s = 0;
    while s + m <= n {
        // Tried: `matching::compare_up`. It is slower, by 2 to 10 in 100 over the window alone: its count is tested again after the loop.
        let mut k = 0;
        while k < m {
            if pattern[k] != text[s + k] {
                break;
            }
            k += 1;
        }
        compared += k;
        if k < m {
            compared += 1;
        } else {
            matching::store(list, total, s as u32);
            total += 1;
        }
        if n <= s + m {
            break;
        }
        s += scratch[text[s + m] as usize] as usize;
    }
    Ok(Tally {
        total: total as u32,
        comparisons: compared as u32,
    })
}
