// Folding (document 01, "Folding (ISO 8859-1)"; document 02 (iii) and (iv)): small letters for capital ones, on page 1, which is ISO 8859-1, and on page 15, which is ISO 8859-15.
// Page 1 is the formula that the operators' handbook lists; page 15 is a constant table (src/page_15.rt), shown to meet its rule at each entry (proofs/on_page_15).
// It depends on `matching` for the answer that a call gives, its refusals, the rule of a lent list, and case analysis, and on `tables` for the law of a table by a rule.
#![tactic(auto)]

mod page_15;

ghost use Rattle.std.specs.Prelude.{◌≡◌, ℕ, ◌<◌, map, min, length};
ghost use Rattle.matching.specs.Received.{received};
ghost use Rattle.matching.specs.Results.{answer};
ghost use Rattle.fold.specs.Fold.{folded, folded15, is_page, page_by, folding, letter_answer, LettersFolded};

use matching::Refusal;
use page_15::PAGE_15;

// What folding a text gives back to C: a refusal or 0, and the letters written.
#[repr(C)]
#[derive(Clone, Copy)]
pub struct Folding {
    pub refusal: u32,
    pub number: usize,
}

impl From<Result<usize, Refusal>> for Folding {
    ghost from_gives = { λ written r. r ≡ folding written };

    fn from(written: Result<usize, Refusal>) -> Folding {
        match written {
            Ok(number) => Folding { refusal: 0, number },
            Err(refusal) => Folding {
                refusal: refusal.into(),
                number: 0,
            },
        }
    }
}

// A page, named after its number: 1 or 15. Interfaces pass it by that number.
#[derive(Clone, Copy, Debug, PartialEq, Eq)]
pub enum Page {
    One,
    Fifteen,
}

impl TryFrom<u32> for Page {
    type Error = Refusal;

    ghost try_from_gives = { λ number r. r ≡ page_by number };

    fn try_from(number: u32) -> Result<Page, Refusal> {
        match number {
            1 => Ok(Page::One),
            15 => Ok(Page::Fifteen),
            _ => Err(Refusal::UnknownPage),
        }
    }
}

// Whether there is such a page.
#[tactic(auto, unfolding(crate::specs::Fold::is_page))]
pub fn is_page(page: u32) -> bool
    ensures { result ≡ is_page page }
{
    Page::try_from(page).is_ok()
}

// One letter on page 1: 0x20 is added to 0x41 to 0x5A, and to 0xC0 to 0xDE except 0xD7; every other letter stays.
#[tactic(auto, unfolding(crate::specs::Fold::folded, crate::specs::Fold::capital))]
pub fn on_page_1(byte: u8) -> u8
    ensures { result ≡ folded byte }
{
    if (0x41 <= byte && byte <= 0x5A) || (0xC0 <= byte && byte <= 0xDE && byte != 0xD7) {
        return byte + 0x20;
    }
    byte
}

// One letter on page 15, by its table.
pub fn on_page_15(byte: u8) -> u8
    ensures { result ≡ folded15 byte }
{
    PAGE_15[byte as usize]
}

// One letter, folded; refused where there is no such page.
#[tactic(auto, unfolding(crate::specs::Fold::is_page, crate::specs::Fold::fold_on, crate::specs::Fold::letter_answer))]
pub fn letter(page: u32, byte: u8) -> Result<u8, Refusal>
    ensures { answer result ≡ letter_answer page byte }
{
    Ok(match Page::try_from(page)? {
        Page::One => on_page_1(byte),
        Page::Fifteen => on_page_15(byte),
    })
}

// The letters of a source, each folded, into a target: as many as it can hold, and their number; its bytes past those keep their values.
// It goes by an index: of `target.iter_mut().zip(source)` the proof did not close, since nothing is known of the target's letters there.
fn each_folded<F: Fn(u8) -> u8>(fold: F, source: &[u8], target: &mut [u8]) -> usize
    requires { F.IsAlwaysCallable fold }
    ensures count { result ≡ min (length source.now) (length target.old) }
    ensures left { (f : ℕ → ℕ) → ((x y : ℕ) → x < 256 → F.post fold x y → y ≡ f x) → target.new ≡ received target.old (map f source.now) }
{
    let end = source.len().min(target.len());
    for i in 0..end {
        target[i] = fold(source[i]);
    }
    end
}

// The letters of a source, folded into a lent target: as many as it can hold, and their number; its bytes past those keep their values. Refused, with nothing written, where there is no such page.
// Each page has a loop of its own, since of the formula the compiler makes comparisons of sixteen letters at a time, and cannot of a table.
#[tactic(auto, unfolding(crate::specs::Fold::is_page, crate::specs::Fold::fold_on))]
pub fn letters(page: u32, source: &[u8], target: &mut [u8]) -> Result<usize, Refusal>
    ensures { LettersFolded page source.now target.old (folding result) target.new }
{
    Ok(match Page::try_from(page)? {
        Page::One => each_folded(on_page_1, source, target),
        Page::Fifteen => each_folded(on_page_15, source, target),
    })
}
