// A cut of a text (document 02, (xiii)): the new text, the list that a call is given, and the refusals of a call, in their order.
// It depends on `matching` for the refusals of phrase and text. `late_cuts` makes the list for the new text.
// No number overflows, whatever the lengths and the stretch: each test comes before the sums that it makes small.
#![tactic(auto)]

ghost use Rattle.std.specs.Prelude.{◌≡◌, ◌&&◌, ◌≤◌};
ghost use Rattle.matching.specs.Results.{refused_by};
ghost use Rattle.cuts.specs.Cuts.{cut, rises, all_fit, relist_refusal};

use matching::Refusal;

// Whether a list strictly rises and the phrase, of m letters, stays within the n letters of the text at each place.
#[tactic(auto, using(crate::proofs::Lists::place_by_place))]
fn accepted(list: &[u32], m: usize, n: usize) -> bool
    requires { m ≤ 1024 }
    ensures { result ≡ rises list.now && all_fit m n list.now }
{
    let mut low = 0;
    for place in list {
        let place = *place as usize;
        if place < low || n < place + m {
            return false;
        }
        low = place + 1;
    }
    true
}

// The tests of a call, in their order.
// A cut stays three parameters: they are those of the public `late_cuts::relist`, which may not change.
#[tactic(auto, using(crate::proofs::Calls::rows))]
pub fn refused(
    phrase: &[u8],
    text: &[u8],
    list: &[u32],
    start: usize,
    end: usize,
    letters: &[u8],
) -> Result<(), Refusal>
    ensures { refused_by result ≡ relist_refusal phrase.now text.now list.now (cut start end letters.now) }
{
    let m = phrase.len();
    let n = text.len();
    matching::refused(m, n, 0, 0)?;
    if end < start || n < end {
        return Err(Refusal::BadStretch);
    }
    if !accepted(list, m, n) {
        return Err(Refusal::BadList);
    }
    if 32768 < start + letters.len() + (n - end) {
        return Err(Refusal::LongText);
    }
    Ok(())
}
