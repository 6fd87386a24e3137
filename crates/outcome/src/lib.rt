// What resolving the cues of a book comes to, as definitions and laws: which cues are chosen, where each stands, the first fault, what is written, how often the text is read, and what a call gives back.
// `resolver` computes what is defined here; the functions of this crate make the tests of a call before its book is read, of a group and of a cue. A change to a definition or a law is checked here, in a
// second or two.
// It depends on `matching` for the occurrences, what of a list passes a test, the refusals and their table, on `roles` for who may resolve, on `calendar` for the days that there are, on `fold` for the pages that there are, on `line_column` for the line rule, on `cue_fields` and `cues` for a cue, and on `cue_book` for what a book reads as.
#![tactic(auto)]

ghost use Rattle.std.specs.Prelude.{◌≡◌};
ghost use Rattle.matching.specs.Results.{refused_by};
ghost use Rattle.outcome.specs.Outcome.{call_refusal_of, fitting, fault_of};

use cues::Choice;
use fold::Page;
use matching::Refusal;

// The tests of the role, of the day, of the text, of the page and of the lent memory, before the book is read.
#[tactic(auto, unfolding(crate::specs::Outcome::call_refusal_of, matching::specs::Refusals::first_met, calendar::specs::Calendar::day_refusal, fold::specs::Fold::is_page))]
pub fn refused(
    choice: Choice,
    page: u32,
    n: usize,
    copy: usize,
    scratch: usize,
) -> Result<(), Refusal>
    ensures { refused_by result ≡ call_refusal_of choice page n copy scratch }
{
    if !roles::may_resolve(choice.role) {
        return Err(Refusal::NotAllowed);
    }
    calendar::day_refused(choice.day)?;
    if 32768 < n {
        return Err(Refusal::LongText);
    }
    if scratch < 65535 {
        return Err(Refusal::ShortScratch);
    }
    Page::try_from(page)?;
    if copy < n {
        return Err(Refusal::ShortBuffer);
    }
    Ok(())
}

// Whether so many cues with so many phrase bytes fit into one group.
pub fn group_fits(count: usize, bytes: usize) -> bool
    ensures { result ≡ fitting count bytes }
{
    count <= 64 && bytes <= 4096
}

// The tests of a cue, by whether its occurrence exists, how many cues came before it, the place of the last of them, and its own. The first has none before it.
#[tactic(auto, unfolding(crate::specs::Outcome::fault_of, matching::specs::Refusals::first_met))]
pub fn cue_refused(there: bool, before: usize, last: u32, place: u32) -> Result<(), Refusal>
    ensures { refused_by result ≡ fault_of there before last place }
{
    if !there {
        return Err(Refusal::NoOccurrence);
    }
    if before != 0 && place <= last {
        return Err(Refusal::NotForward);
    }
    Ok(())
}
