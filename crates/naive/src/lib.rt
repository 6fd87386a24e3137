// The naive engine: every start in turn, left to right, move 1. It depends on `matching`.
// The first letter has a test of its own before the compare loop, since most windows end there.
#![tactic(auto)]

ghost use Rattle.matching.specs.Find.{Found};
ghost use Rattle.matching.specs.Results.{finding};
ghost use Rattle.naive.specs.Naive.{naive};

use matching::{Refusal, Tally};

// Finds the pattern in the text; the scratch is not needed, and is left as it was.
// The compiler keeps it by itself: as a part of one function with the other engines its loop has too few registers.
#[inline(never)]
pub fn find(
    pattern: &[u8],
    text: &[u8],
    scratch: &mut [u16],
    list: &mut [u32],
) -> Result<Tally, Refusal>
    ensures { Found naive pattern.now text.now scratch.old list.old (finding result) scratch.new list.new }
{
    let m = pattern.len();
    let n = text.len();
    matching::refused(m, n, scratch.len(), 0)?;
    let mut total = 0;
    let mut compared = 0;
    for s in 0..(n + 1).saturating_sub(m) {
        if pattern[0] != text[s] {
            compared += 1;
            continue;
        }
        let k = 1 + matching::compare_up(&pattern[1..], &text[s + 1..s + m]);
        compared += k;
        if k < m {
            compared += 1;
        } else {
            matching::store(list, total, s as u32);
            total += 1;
        }
    }
    Ok(Tally {
        total: total as u32,
        comparisons: compared as u32,
    })
}
