// The calls on a cue book or a cue, each with the role of who calls (document 02, (xiv)): a role that may not do an act is refused with 19 and zeros, ahead of every other test, and all is as before. What a call
// does for a role that may is the promise of the crate that does it.
// It depends on `roles` for what each role may do, on `plain`, `cue_book` and `retitle` for the acts, on `cue_fields`, `cues` and `cue_writer` for what they promise, and on `matching` for the refusal and the answer that a call gives.
#![tactic(auto)]

ghost use Rattle.std.specs.Prelude.{◌≡◌};
ghost use Rattle.roles.specs.Roles.{may_all, may_retitle};
ghost use Rattle.cues.specs.Cue.{cue_with};
ghost use Rattle.cues.specs.Places.{cue_at};
ghost use Rattle.cue_writer.specs.Writing.{mark_given, Written};
ghost use Rattle.plain.specs.Plain.{field_due, days_given};
ghost use Rattle.retitle.specs.Retitling.{Retitled};
ghost use Rattle.book_calls.specs.Calls.{field_for, cue_for, book_for, TitlePlacedFor, TitleShownFor, Allowed};

use cue_book::Part;
use matching::{Answer, Refusal};
use plain::{PlainCue, PlainField};

// The field that a number names by its tag, read at a place of a book, for the operator.
pub fn read_field(role: u32, book: &[u8], place: usize, due: u32) -> PlainField
    ensures { result ≡ field_for role (field_due book.now place due) }
{
    if !roles::may_all(role) {
        return PlainField::from(Err(Refusal::NotAllowed));
    }
    plain::read_field(book, place, due)
}

// A cue read at a place of a book, for the operator.
pub fn read_cue(role: u32, book: &[u8], place: usize) -> PlainCue
    ensures { result ≡ cue_for role (cue_at book.now place) }
{
    if !roles::may_all(role) {
        return PlainCue::from(Err(Refusal::NotAllowed));
    }
    plain::read_cue(book, place)
}

// A book read, for the operator: 0 and its number of cues, or the refusal and the index of its cue.
pub fn read_book(role: u32, book: &[u8]) -> Answer
    ensures { result ≡ book_for role book.now }
{
    if !roles::may_all(role) {
        return Answer::from(Err(Refusal::NotAllowed));
    }
    cue_book::read_book(book).into()
}

// Where the title of a cue stands in the book, for the operator; for another role the empty part at the book's front.
pub fn title_part(role: u32, book: &[u8], cue: u32) -> Part
    ensures { TitlePlacedFor role book.now cue result }
{
    if !roles::may_all(role) {
        return Part { start: 0, len: 0 };
    }
    cue_book::title_part(book, cue)
}

// The title of a cue as the part of the book where it stands, for the operator; for another role the empty part at the book's front.
pub fn title(role: u32, book: &[u8], cue: u32) -> &[u8]
    ensures { TitleShownFor role book.entry cue result }
{
    if !roles::may_all(role) {
        return &book[..0];
    }
    cue_book::title(book, cue)
}

// A cue written at the buffer's start, for the operator: 0 and its length, or the refusal and 0.
pub fn write_cue(
    role: u32,
    buffer: &mut [u8],
    phrase: &[u8],
    ordinal: u32,
    title: &[u8],
    dated: u32,
    first: u32,
    last: u32,
    house: u32,
) -> Answer
    ensures { Allowed (may_all role) (Written (cue_with phrase.now ordinal title.now (days_given dated first last) (mark_given house)) house buffer.old result buffer.new) buffer.old result buffer.new }
{
    if !roles::may_all(role) {
        return Answer::from(Err(Refusal::NotAllowed));
    }
    plain::write_cue(buffer, phrase, ordinal, title, dated, first, last, house)
}

// A book written anew at the buffer's start with another title at a cue, for the operator and a translator: 0 and its length, or the refusal and its number.
pub fn retitle(role: u32, book: &[u8], cue: u32, title: &[u8], buffer: &mut [u8]) -> Answer
    ensures { Allowed (may_retitle role) (Retitled book.now cue title.now buffer.old result buffer.new) buffer.old result buffer.new }
{
    if !roles::may_retitle(role) {
        return Answer::from(Err(Refusal::NotAllowed));
    }
    retitle::retitle(book, cue, title, buffer).into()
}
