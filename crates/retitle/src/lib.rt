// This crate writes a cue book anew with one title replaced and nothing else changed (document 02, (xiv)): it reads the book in one pass, and lays four pieces out in a second buffer.
// It depends on `cue_book` for reading a book and finding a title, on `cue_fields` and `cues` for the format, on `pieces` for laying out, on `cue_writer` for the laws that a book written reads back, and on `matching` for the refusals and the faults of a book, its tables of refusals and its parts of a slice.
// proofs/Retitling.antt has the theorem that the new book reads as the old one with that cue's title replaced (`new-book`).
#![tactic(auto)]

ghost use Rattle.std.specs.Prelude.{◌≡◌, ◌+◌, ◌≤◌, length};
ghost use Rattle.matching.specs.Refusals.{first_met};
ghost use Rattle.matching.specs.Results.{refused_by, answer, fault_answer};
ghost use Rattle.retitle.specs.Retitling.{call_tests, Retitled, book_pieces, Put};

use matching::{Fault, Refusal};

// Lays the new book out at the buffer's start: its length, or 13 where the buffer is shorter.
fn put_book(buffer: &mut [u8], before: &[u8], title: &[u8], behind: &[u8]) -> Result<u32, Refusal>
    requires short { length title.now ≤ 200 }
    requires fits { length before.now + length behind.now ≤ 999000000 }
    ensures { Put (book_pieces before.now title.now behind.now) buffer.old (answer result) buffer.new }
{
    if buffer.len() < before.len() + 2 + title.len() + behind.len() {
        return Err(Refusal::LongCue);
    }
    let two = (title.len() as u16).to_be_bytes();
    let mut at = pieces::put_bytes(buffer, 0, before);
    at = pieces::put_bytes(buffer, at, &two);
    at = pieces::put_bytes(buffer, at, title);
    at = pieces::put_bytes(buffer, at, behind);
    Ok(at as u32)
}

// The tests of the new title and of the cue's index in a book of so many cues.
#[tactic(auto, unfolding(matching::specs::Refusals::first_met))]
fn title_refused(title: &[u8], cues: u32, cue: u32) -> Result<(), Refusal>
    ensures { refused_by result ≡ first_met (call_tests title.now cues cue) }
{
    if 200 < title.len() {
        return Err(Refusal::BadField);
    }
    if cues <= cue {
        return Err(Refusal::NoOccurrence);
    }
    Ok(())
}

// Writes a book with another title at a cue at the buffer's start: its length, or the refusal with the number that belongs to it.
pub fn retitle(book: &[u8], cue: u32, title: &[u8], buffer: &mut [u8]) -> Result<u32, Fault>
    ensures { Retitled book.now cue title.now buffer.old (fault_answer result) buffer.new }
{
    let found = cue_book::find_title(book, cue)?;
    title_refused(title, found.cues, cue)?;
    let start = found.title.start - 2;
    let end = found.title.start + found.title.len;
    Ok(put_book(buffer, &book[..start], title, &book[end..])?)
}
