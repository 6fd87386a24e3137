// This crate is the C interface: each function is exported under the name that include/libretto.h gives it, and carries the exact contract of what it wraps.
// It is a static library: `rt lib` in its folder makes the archive that C and Rust link.
// It depends on `find`, `fjs`, `late_cuts`, `fold`, `calendar`, `book_calls` and `resolver` for what it exports, on `fjs_steps`, `cuts`, `cues`, `cue_book`, `cue_writer`, `plain`, `retitle` and `roles` for what a find by FJS, a cut, a cue, a part of a book, a cue that is written, a cue as numbers, a book with another title and what a role may do are, and on `matching` for a finding and an answer.
#![tactic(auto)]

ghost use Rattle.std.specs.Prelude.{◌≡◌};
ghost use Rattle.matching.specs.Find.{Found};
ghost use Rattle.fjs_steps.specs.Fjs.{fjs, Bounded};
ghost use Rattle.fjs.specs.Listed.{finding, Listed};
ghost use Rattle.find.specs.Find.{Answered};
ghost use Rattle.cuts.specs.Cuts.{cut};
ghost use Rattle.late_cuts.specs.LateCuts.{Relisted};
ghost use Rattle.fold.specs.Fold.{letter_answer, LettersFolded};
ghost use Rattle.calendar.specs.Calendar.{day_answer, date_answer};
ghost use Rattle.cues.specs.Cue.{cue_with};
ghost use Rattle.cues.specs.Places.{cue_at};
ghost use Rattle.roles.specs.Roles.{may_all, may_retitle};
ghost use Rattle.cue_writer.specs.Writing.{mark_given, Written};
ghost use Rattle.retitle.specs.Retitling.{Retitled};
ghost use Rattle.book_calls.specs.Calls.{field_for, cue_for, book_for, TitlePlacedFor, Allowed};
ghost use Rattle.resolver.specs.Resolver.{Resolved};
ghost use Rattle.plain.specs.Plain.{field_due, days_given};

use calendar::CalendarDate;
use cue_book::Part;
use fjs::MovesFinding;
use fold::Folding;
use matching::{Answer, Finding};
use plain::{PlainCue, PlainField};
use resolver::Resolving;

// A find by a method number. Slices pass as pointer and length, the finding as a struct of three 32-bit numbers.
#[unsafe(no_mangle)]
pub extern "C" fn libretto_find(
    method: u32,
    phrase: &[u8],
    text: &[u8],
    scratch: &mut [u16],
    list: &mut [u32],
) -> Finding
    ensures { Answered method phrase.now text.now scratch.old list.old result scratch.new list.new }
{
    find::find(method, phrase, text, scratch, list).into()
}

// A find by FJS that also lists the moves. The finding passes as a struct of four 32-bit numbers.
#[unsafe(no_mangle)]
pub extern "C" fn libretto_find_moves(
    phrase: &[u8],
    text: &[u8],
    scratch: &mut [u16],
    list: &mut [u32],
    moves: &mut [u32],
) -> MovesFinding
    ensures found { Found fjs phrase.now text.now scratch.old list.old (finding result) scratch.new list.new }
    ensures bounded { Bounded phrase.now text.now result.comparisons }
    ensures moved { Listed phrase.now text.now scratch.old moves.old result moves.new }
{
    fjs::find_moves(phrase, text, scratch, list, moves).into()
}

// A phrase's list for a text in which a stretch was replaced, from its list for the old text: 0 and the total, or the refusal and 0.
#[unsafe(no_mangle)]
pub extern "C" fn libretto_relist(
    phrase: &[u8],
    text: &[u8],
    list: &[u32],
    start: usize,
    end: usize,
    letters: &[u8],
    answer: &mut [u32],
) -> Answer
    ensures { Relisted phrase.now text.now list.now (cut start end letters.now) answer.old result answer.new }
{
    late_cuts::relist(phrase, text, list, start, end, letters, answer).into()
}

// What a letter folds to on a page: 0 and the letter, or 14 and 0.
#[unsafe(no_mangle)]
pub extern "C" fn libretto_fold(page: u32, letter: u8) -> Answer
    ensures { result ≡ letter_answer page letter }
{
    fold::letter(page, letter).map(u32::from).into()
}

// The letters of a text, folded on a page into a lent target: 0 and how many were written, as many as it has entries; or 14 and 0. It passes as a struct of a 32-bit number and a length.
#[unsafe(no_mangle)]
pub extern "C" fn libretto_fold_text(page: u32, text: &[u8], target: &mut [u8]) -> Folding
    ensures { LettersFolded page text.now target.old result target.new }
{
    fold::letters(page, text, target).into()
}

// The day of a date: 0 and the days since 1 January 2000, or 16 and 0.
#[unsafe(no_mangle)]
pub extern "C" fn libretto_day(year: u32, month: u32, day: u32) -> Answer
    ensures { result ≡ day_answer year month day }
{
    calendar::day(year, month, day).into()
}

// The date of a day: 0, the year, the month and the day of the month; or 16 and zeros. It passes as a struct of four 32-bit numbers.
#[unsafe(no_mangle)]
pub extern "C" fn libretto_date(day: u32) -> CalendarDate
    ensures { result ≡ date_answer day }
{
    calendar::date(day).into()
}

// The field that a number names by its tag, read at a place of a book, for the operator; 19 alone for another role.
#[unsafe(no_mangle)]
pub extern "C" fn libretto_read_field(role: u32, book: &[u8], place: usize, due: u32) -> PlainField
    ensures { result ≡ field_for role (field_due book.now place due) }
{
    book_calls::read_field(role, book, place, due)
}

// A cue read at a place of a book, for the operator; 19 and zeros for another role.
#[unsafe(no_mangle)]
pub extern "C" fn libretto_read_cue(role: u32, book: &[u8], place: usize) -> PlainCue
    ensures { result ≡ cue_for role (cue_at book.now place) }
{
    book_calls::read_cue(role, book, place)
}

// A book read, for the operator: 0 and its number of cues, or the refusal and the cue's index; 19 and 0 for another role. An answer passes as a struct of two 32-bit numbers.
#[unsafe(no_mangle)]
pub extern "C" fn libretto_read_book(role: u32, book: &[u8]) -> Answer
    ensures { result ≡ book_for role book.now }
{
    book_calls::read_book(role, book)
}

// Where a cue's title stands in the book, for the operator, as a struct of a start and a length; the empty part at the book's front for another role.
#[unsafe(no_mangle)]
pub extern "C" fn libretto_title(role: u32, book: &[u8], cue: u32) -> Part
    ensures { TitlePlacedFor role book.now cue result }
{
    book_calls::title_part(role, book, cue)
}

// A cue written at the buffer's start, for the operator, without dates where `dated` is 0, and else with these two days, open where `house` is 0 and for the house only where it is 1: 0 and its length, or the
// refusal and 0.
#[unsafe(no_mangle)]
pub extern "C" fn libretto_write_cue(
    role: u32,
    buffer: &mut [u8],
    phrase: &[u8],
    ordinal: u32,
    title: &[u8],
    dated: u32,
    first: u32,
    last: u32,
    house: u32,
) -> Answer
    ensures { Allowed (may_all role) (Written (cue_with phrase.now ordinal title.now (days_given dated first last) (mark_given house)) house buffer.old result buffer.new) buffer.old result buffer.new }
{
    book_calls::write_cue(
        role, buffer, phrase, ordinal, title, dated, first, last, house,
    )
}

// A book written anew at the buffer's start with another title at a cue, for the operator and a translator: 0 and its length, or the refusal and its number.
#[unsafe(no_mangle)]
pub extern "C" fn libretto_retitle(
    role: u32,
    book: &[u8],
    cue: u32,
    title: &[u8],
    buffer: &mut [u8],
) -> Answer
    ensures { Allowed (may_retitle role) (Retitled book.now cue title.now buffer.old result buffer.new) buffer.old result buffer.new }
{
    book_calls::retitle(role, book, cue, title, buffer)
}

// The cues of a book that a role sees and that play on a day resolved in a text, both folded by a page, for the operator and a guest: 0 and the number of these cues, or the refusal and its number; and the
// letters of the text that were read. It passes as a struct of three 32-bit numbers.
#[unsafe(no_mangle)]
pub extern "C" fn libretto_resolve(
    role: u32,
    day: u32,
    page: u32,
    book: &[u8],
    text: &[u8],
    copy: &mut [u8],
    scratch: &mut [u16],
    entries: &mut [u32],
) -> Resolving
    ensures { Resolved (record { role = role; day = day }) page book.now text.now copy.old scratch.old entries.old result copy.new scratch.new entries.new }
{
    resolver::resolve(role, day, page, book, text, copy, scratch, entries)
}
