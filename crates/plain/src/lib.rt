// The cue book by plain numbers, for an interface that passes no enum: a field and a cue read at a place of a book, and a cue written.
// It depends on `cue_fields` and `cues`, which read them, on `cue_writer`, which writes one, and on `matching` for the refusals and the answer that a call gives.
// A refused answer is 0 in all but its refusal; specs/Plain.antt has what passes for each answer.
#![tactic(auto)]

ghost use Rattle.std.specs.Prelude.{◌≡◌, Err};
ghost use Rattle.cues.specs.Cue.{cue_with};
ghost use Rattle.cues.specs.Places.{cue_at};
ghost use Rattle.cue_writer.specs.Writing.{mark_given, Written};
ghost use Rattle.plain.specs.Plain.{due_named, field_due, field_passed, days_passed, mark_passed, cue_passed, days_given};

use cue_fields::{Due, Span};
use cues::{Cue, Days, Mark};
use matching::{Answer, Refusal};

// A field read: the refusal, or 0 with its body's start and length and the place after it. A refused one is 0 in all else.
#[repr(C)]
#[derive(Clone, Copy)]
pub struct PlainField {
    pub refusal: u32,
    pub start: usize,
    pub len: usize,
    pub end: usize,
}

// A cue read: the refusal, or 0 with its ordinal, its days, its mark, its phrase and its title as parts of the book, and the place after it. `dated` is 1 with the two days where the cue has dates; where it plays
// always, these three are 0. `marked` is 1 where the cue says whether it is open, and `house` is 1 where it is for the house only. A refused one is 0 in all but its refusal.
#[repr(C)]
#[derive(Clone, Copy)]
pub struct PlainCue {
    pub refusal: u32,
    pub ordinal: u32,
    pub dated: u32,
    pub first: u32,
    pub last: u32,
    pub marked: u32,
    pub house: u32,
    pub phrase_start: usize,
    pub phrase_len: usize,
    pub title_start: usize,
    pub title_len: usize,
    pub end: usize,
}

// A cue's days as they pass: 1 with the first and the last where it has dates, and 0 in all where it plays always.
#[derive(Clone, Copy)]
struct PlainDays {
    dated: u32,
    first: u32,
    last: u32,
}

// A cue's mark as it passes: whether it has one, and whether it is for the house only.
#[derive(Clone, Copy)]
struct PlainMark {
    marked: u32,
    house: u32,
}

impl From<Result<Span, Refusal>> for PlainField {
    ghost from_gives = { λ read r. r ≡ field_passed read };

    fn from(read: Result<Span, Refusal>) -> PlainField {
        match read {
            Ok(body) => PlainField {
                refusal: 0,
                start: body.start,
                len: body.end.saturating_sub(body.start),
                end: body.end,
            },
            Err(refusal) => PlainField {
                refusal: refusal.into(),
                start: 0,
                len: 0,
                end: 0,
            },
        }
    }
}

impl From<Days> for PlainDays {
    ghost from_gives = { λ days r. r ≡ days_passed days };

    fn from(days: Days) -> PlainDays {
        match days {
            Days::Always => PlainDays {
                dated: 0,
                first: 0,
                last: 0,
            },
            Days::Within { first, last } => PlainDays {
                dated: 1,
                first,
                last,
            },
        }
    }
}

impl From<Mark> for PlainMark {
    ghost from_gives = { λ mark r. r ≡ mark_passed mark };

    fn from(mark: Mark) -> PlainMark {
        match mark {
            Mark::Unmarked => PlainMark {
                marked: 0,
                house: 0,
            },
            Mark::Open => PlainMark {
                marked: 1,
                house: 0,
            },
            Mark::HouseOnly => PlainMark {
                marked: 1,
                house: 1,
            },
        }
    }
}

// A refused cue, 0 in all but its refusal.
fn refused_cue(refusal: Refusal) -> PlainCue
    ensures { result ≡ cue_passed (Err refusal) }
{
    PlainCue {
        refusal: refusal.into(),
        ordinal: 0,
        dated: 0,
        first: 0,
        last: 0,
        marked: 0,
        house: 0,
        phrase_start: 0,
        phrase_len: 0,
        title_start: 0,
        title_len: 0,
        end: 0,
    }
}

impl From<Result<Cue, Refusal>> for PlainCue {
    ghost from_gives = { λ read r. r ≡ cue_passed read };

    fn from(read: Result<Cue, Refusal>) -> PlainCue {
        match read {
            Ok(cue) => {
                let days = PlainDays::from(cue.days);
                let mark = PlainMark::from(cue.mark);
                PlainCue {
                    refusal: 0,
                    ordinal: cue.ordinal,
                    dated: days.dated,
                    first: days.first,
                    last: days.last,
                    marked: mark.marked,
                    house: mark.house,
                    phrase_start: cue.phrase.start,
                    phrase_len: cue.phrase.end.saturating_sub(cue.phrase.start),
                    title_start: cue.title.start,
                    title_len: cue.title.end.saturating_sub(cue.title.start),
                    end: cue.end,
                }
            }
            Err(refusal) => refused_cue(refusal),
        }
    }
}

// The field that a number names by its tag. It is a function here, and no `TryFrom` of `Due`, since a number that names none is refused by the book's bytes.
fn due_named(number: u32) -> Option<Due>
    ensures { result ≡ due_named number }
{
    match number {
        1 => Some(Due::Phrase),
        2 => Some(Due::Ordinal),
        3 => Some(Due::Title),
        4 => Some(Due::Dates),
        5 => Some(Due::House),
        _ => None,
    }
}

// The field that a number names, read at a place of a book. No byte is the tag of another number.
#[tactic(auto, unfolding(crate::specs::Plain::field_due))]
fn read_due(book: &[u8], place: usize, due: u32) -> Result<Span, Refusal>
    ensures { result ≡ field_due book.now place due }
{
    match due_named(due) {
        Some(due) => cue_fields::read_field(book, place, due),
        None if book.len().saturating_sub(place) < 3 => Err(Refusal::CutField),
        None => Err(Refusal::WrongTag),
    }
}

// The field that a number names, read at a place of a book, as it passes.
pub fn read_field(book: &[u8], place: usize, due: u32) -> PlainField
    ensures { result ≡ field_passed (field_due book.now place due) }
{
    read_due(book, place, due).into()
}

// A cue read at a place of a book.
pub fn read_cue(book: &[u8], place: usize) -> PlainCue
    ensures { result ≡ cue_passed (cue_at book.now place) }
{
    cues::read_cue(book, place).into()
}

// The days that come as plain numbers: always where `dated` is 0, and then the two others play no part; and else from the first to the last.
#[tactic(auto, unfolding(crate::specs::Plain::days_given))]
fn given_days(dated: u32, first: u32, last: u32) -> Days
    ensures { result ≡ days_given dated first last }
{
    if dated == 0 {
        return Days::Always;
    }
    Days::Within { first, last }
}

// A cue written at the buffer's start, its days given as plain numbers, and open with `house` 0 or for the house only with 1: 0 and its length, or the refusal and 0.
pub fn write_cue(
    buffer: &mut [u8],
    phrase: &[u8],
    ordinal: u32,
    title: &[u8],
    dated: u32,
    first: u32,
    last: u32,
    house: u32,
) -> Answer
    ensures { Written (cue_with phrase.now ordinal title.now (days_given dated first last) (mark_given house)) house buffer.old result buffer.new }
{
    let days = given_days(dated, first, last);
    cue_writer::write_cue(buffer, phrase, ordinal, title, days, house).into()
}
