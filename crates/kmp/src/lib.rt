// The KMP engine: left to right, and after a mismatch or an occurrence at j go on from b[j]. It depends on `matching`, and on `tables` and `border_tables` for the entries.
// Where nothing is carried the first letter has a test of its own: b[1] is 0, so a mismatch there moves by 1 with nothing carried.
// Request (xii) is carried by proofs/Bound.antt (at most 2n - m comparisons) and proofs/Exact.antt (m - 1 letters a and a b in n letters a cost 2n - m).
#![tactic(auto)]

ghost use Rattle.std.specs.Prelude.{◌-◌, ◌*◌, ◌≤◌, length};
ghost use Rattle.matching.specs.Find.{Found};
ghost use Rattle.matching.specs.Results.{finding};
ghost use Rattle.kmp.specs.Kmp.{kmp};

use matching::{Refusal, Tally};

// Finds the pattern in the text; the scratch's front holds b[1] to b[m + 1] afterwards. The window starts at s, and its first q letters are carried.
pub fn find(
    pattern: &[u8],
    text: &[u8],
    scratch: &mut [u16],
    list: &mut [u32],
) -> Result<Tally, Refusal>
    ensures found { Found kmp pattern.now text.now scratch.old list.old (finding result) scratch.new list.new }
    ensures bounded { length pattern.now ≤ length text.now → (finding result).comparisons ≤ 2 * length text.now - length pattern.now }
{
    let m = pattern.len();
    let n = text.len();
    matching::refused(m, n, scratch.len(), m + 1)?;
    border_tables::kmp_table(pattern, scratch);
    let mut total = 0;
    let mut compared = 0;
    let mut s = 0;
    let mut q: usize = 0;
    while s + m <= n {
        if q == 0 && pattern[0] != text[s] {
            compared += 1;
            s += 1;
            continue;
        }
        // Tried: `matching::compare_up` from letter k + 1 on. It is slower, by 5 to 20 in 100: its count is tested again after the loop.
        let mut k = q.max(1); // where nothing is carried the first letter was just found equal
        while k < m {
            if pattern[k] != text[s + k] {
                break;
            }
            k += 1;
        }
        compared += k - q;
        if k < m {
            compared += 1;
        } else {
            matching::store(list, total, s as u32);
            total += 1;
        }
        let b = scratch[k] as usize;
        s += k + 1 - b;
        q = b.saturating_sub(1);
    }
    Ok(Tally {
        total: total as u32,
        comparisons: compared as u32,
    })
}
