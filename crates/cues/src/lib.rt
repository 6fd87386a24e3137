// This crate reads one cue at a place of a book (document 01, "Cue book, folding, lines"; document 02, (viii) and (xiv)), and says what a cue's value and its bytes are, when it plays, and who sees it.
// It depends on `cue_fields` for a field and for fields in the order of a list, on `calendar` for the days that there are, on `roles` for who is a guest, and on `matching` for the refusals, its tables of refusals and its case analysis.
// proofs/Values.antt has the laws that a cue written reads back, and that a cue read was so written; `cue_book` reads a whole book, and `cue_writer` writes a cue.
#![tactic(auto)]

ghost use Rattle.std.specs.Prelude.{◌≡◌, ◌≤◌, length};
ghost use Rattle.matching.specs.Results.{refused_by};
ghost use Rattle.cue_fields.specs.Field.{bytes_in};
ghost use Rattle.cues.specs.Cue.{days_from, mark_from, days_hold, sees, is_chosen};
ghost use Rattle.cues.specs.Places.{CueRead};
ghost use Rattle.cues.specs.Rest.{RestRead};

use cue_fields::{Due, Span};
use matching::Refusal;
use roles::Role;

// The days on which a cue plays: always, or from a first day to a last one.
#[derive(Clone, Copy, Debug, PartialEq, Eq)]
pub enum Days {
    Always,
    Within { first: u32, last: u32 },
}

// Whether a cue says who may see it: it has no mark, and is open; it is marked as open; or it is for the house only.
#[derive(Clone, Copy, Debug, PartialEq, Eq)]
pub enum Mark {
    Unmarked,
    Open,
    HouseOnly,
}

// For which role and for which day cues are chosen. The role is its number, as interfaces pass it; one that is unknown is no guest.
#[derive(Clone, Copy, Debug, PartialEq, Eq)]
pub struct Choice {
    pub role: u32,
    pub day: u32,
}

// A cue as it is read: its phrase and its title as the parts of the book where they stand, its ordinal, its days, its mark, and the place after it.
#[derive(Clone, Copy, Debug, PartialEq, Eq)]
pub struct Cue {
    pub phrase: Span,
    pub ordinal: u32,
    pub title: Span,
    pub days: Days,
    pub mark: Mark,
    pub end: usize,
}

// What the fields behind a cue's title say: its days, its mark, and the place after the cue.
#[derive(Clone, Copy)]
struct Rest {
    days: Days,
    mark: Mark,
    end: usize,
}

// Whether a cue with these days plays on a day: on the first and on the last too.
pub fn plays(days: Days, day: u32) -> bool
    ensures { result ≡ days_hold day days }
{
    match days {
        Days::Always => true,
        Days::Within { first, last } => first <= day && day <= last,
    }
}

// Whether a role sees a cue with this mark: a guest does not see those for the house only.
pub fn sees_mark(role: u32, mark: Mark) -> bool
    ensures { result ≡ sees role mark }
{
    match mark {
        Mark::Unmarked | Mark::Open => true,
        Mark::HouseOnly => !matches!(Role::try_from(role), Ok(Role::Guest)),
    }
}

// Whether a cue with this mark and these days is chosen: the role sees it, and it plays on the day.
pub fn chosen(choice: Choice, mark: Mark, days: Days) -> bool
    ensures { result ≡ is_chosen choice mark days }
{
    sees_mark(choice.role, mark) && plays(days, choice.day)
}

// The days that the body of dates means; the empty one, of a field left out, means always.
#[tactic(auto, unfolding(crate::specs::Cue::days_from))]
fn days_in(body: &[u8]) -> Days
    ensures { result ≡ days_from body.now }
{
    if body.is_empty() {
        return Days::Always;
    }
    let first = cue_fields::number_at(body) as u32;
    let last = cue_fields::number_from(body, 2) as u32;
    Days::Within { first, last }
}

// The mark that the body of a house field means; the empty one, of a field left out, is none.
#[tactic(auto, unfolding(crate::specs::Cue::mark_from))]
fn mark_in(body: &[u8]) -> Mark
    ensures { result ≡ mark_from body.now }
{
    match body.first() {
        None => Mark::Unmarked,
        Some(0) => Mark::Open,
        Some(_) => Mark::HouseOnly,
    }
}

// The bytes of a part of a book.
fn bytes_in(book: &[u8], part: Span) -> &[u8]
    requires ordered { part.start ≤ part.end }
    requires inside { part.end ≤ length book.now }
    ensures { result.now ≡ bytes_in book.now part }
{
    &book[part.start..part.end]
}

// Reads the fields behind a cue's title, each of which may be left out, the first refusal leaving at the spot. Most cues end with their title, so that is asked first.
fn read_rest(book: &[u8], place: usize) -> Result<Rest, Refusal>
    requires { place ≤ length book.now }
    ensures { RestRead book.now place result }
{
    if !cue_fields::more_at(book, place) {
        return Ok(Rest {
            days: Days::Always,
            mark: Mark::Unmarked,
            end: place,
        });
    }
    let dates = cue_fields::read_due(book, place, Due::Dates)?;
    let house = cue_fields::read_due(book, dates.end, Due::House)?;
    Ok(Rest {
        days: days_in(bytes_in(book, dates)),
        mark: mark_in(bytes_in(book, house)),
        end: house.end,
    })
}

// Reads the cue at a place of a book: its fields in their order, the first refusal leaving at the spot.
pub fn read_cue(book: &[u8], place: usize) -> Result<Cue, Refusal>
    ensures { CueRead book.now place result }
{
    let phrase = cue_fields::read_phrase(book, place)?;
    let number = cue_fields::read_ordinal(book, phrase.end)?;
    let title = cue_fields::read_title(book, number.end)?;
    let rest = read_rest(book, title.end)?;
    let ordinal = cue_fields::number_at(bytes_in(book, number)) as u32;
    Ok(Cue {
        phrase,
        ordinal,
        title,
        days: rest.days,
        mark: rest.mark,
        end: rest.end,
    })
}

// The refusal's number of a cue that was asked for, 0 for a cue.
pub fn cue_number(answer: Result<Cue, Refusal>) -> u32
    ensures { result ≡ refused_by answer }
{
    match answer {
        Ok(_) => 0,
        Err(refusal) => refusal.into(),
    }
}
