// This crate reads whole cue books, and shows a title or finds where it stands (document 01, "Cue book, folding, lines"; document 02, (viii) and (xiv)).
// It depends on `cues` for one cue, on `cue_fields` for the size of a cue's fields, and on `matching` for the faults of a book, what of a list passes a test and case analysis.
// proofs/Books.antt has the laws of a book read cue by cue; `cue_writer` has those that a book written reads back.
#![tactic(auto)]

ghost use Rattle.std.specs.Prelude.{◌≡◌};
ghost use Rattle.matching.specs.Results.{fault_answer};
ghost use Rattle.cue_book.specs.Places.{book_answer, chosen_answer, TitleFound, TitlePlaced, TitleShown};
ghost use Rattle.cue_book.specs.Walking.{Walked};

use cues::Choice;
use matching::{Fault, Refusal};

// A part of a book: where it starts, and how many bytes it has.
#[repr(C)]
#[derive(Clone, Copy, Debug, PartialEq, Eq)]
pub struct Part {
    pub start: usize,
    pub len: usize,
}

// What reading a book for the title of one of its cues gives: how many cues it has, and the part where the title stands.
#[derive(Clone, Copy, Debug, PartialEq, Eq)]
pub struct TitleRead {
    pub cues: u32,
    pub title: Part,
}

// What a walk over a whole book gives: how many cues it has, how many of them are chosen, and the part where the wanted cue's title stands.
#[derive(Clone, Copy)]
struct Found {
    cues: u32,
    chosen: u32,
    title: Part,
}

// How many cues a book has at most.
const MOST_CUES: u32 = 999;

// The empty part at a book's front.
const FRONT: Part = Part { start: 0, len: 0 };

// Where it does not matter which cues are chosen.
const ANY_CHOICE: Choice = Choice { role: 0, day: 0 };

// Where no title is wanted: no book has a cue of this index. A number and not an Option: the laws of the title that a walk notes speak of any index.
const NO_CUE: u32 = MOST_CUES;

// Reads a whole book in one pass, counts the cues that are chosen for a role and a day, and notes where the title of the wanted cue stands.
fn walk(book: &[u8], choice: Choice, wanted: u32) -> Result<Found, Fault>
    ensures { Walked book.now choice wanted result }
{
    let mut title = FRONT;
    let mut chosen = 0;
    let mut index = 0;
    let mut place = 0;
    while place < book.len() {
        if index == MOST_CUES {
            return Err(Fault {
                refusal: Refusal::LongBook,
                number: MOST_CUES,
            });
        }
        let cue = cues::read_cue(book, place).map_err(|refusal| Fault {
            refusal,
            number: index,
        })?;
        if cues::chosen(choice, cue.mark, cue.days) {
            chosen += 1;
        }
        if index == wanted {
            title = Part {
                start: cue.title.start,
                len: cue.title.end - cue.title.start,
            };
        }
        index += 1;
        place = cue.end;
    }
    Ok(Found {
        cues: index,
        chosen,
        title,
    })
}

// Reads a book: the number of cues, or the refusal and the index of its cue.
pub fn read_book(book: &[u8]) -> Result<u32, Fault>
    ensures { fault_answer result ≡ book_answer book.now }
{
    Ok(walk(book, ANY_CHOICE, NO_CUE)?.cues)
}

// Reads a book for a role and a day: the number of cues that are chosen, or the refusal and the index of its cue.
pub fn read_chosen(book: &[u8], choice: Choice) -> Result<u32, Fault>
    ensures { fault_answer result ≡ chosen_answer choice book.now }
{
    Ok(walk(book, choice, NO_CUE)?.chosen)
}

// Where the title of a cue stands in the book; the empty part at the book's front where the book is refused or lacks the cue.
pub fn title_part(book: &[u8], cue: u32) -> Part
    ensures { TitlePlaced book.now cue result }
{
    match walk(book, ANY_CHOICE, cue) {
        Ok(found) => found.title,
        Err(_) => FRONT,
    }
}

// Reads a book and finds the title of a cue in one pass: the number of cues, and the title's part as `title_part` gives it; or the refusal and the index of its cue.
pub fn find_title(book: &[u8], cue: u32) -> Result<TitleRead, Fault>
    ensures { TitleFound book.now cue result }
{
    let found = walk(book, ANY_CHOICE, cue)?;
    Ok(TitleRead {
        cues: found.cues,
        title: found.title,
    })
}

// The title of a cue, as the part of the book where it stands.
pub fn title(book: &[u8], cue: u32) -> &[u8]
    ensures { TitleShown book.entry cue result }
{
    let part = title_part(book, cue);
    &book[part.start..part.start + part.len]
}
