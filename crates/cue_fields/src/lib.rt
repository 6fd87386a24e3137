// This crate reads a field of a cue book (document 01, "Cue book, folding, lines"; document 02, (viii) and (xiv)): a tag, a length and a body, tested in the document's order.
// Its definitions also say what fields in the order of a list are (specs/Form.antt), and its laws that reading and writing such fields are inverse (proofs/Form.antt).
// It depends on `matching` for the refusals, its tables of refusals, its parts of a slice and its case analysis, and on `calendar` for the days that there are.
#![tactic(auto)]

ghost use Rattle.std.specs.Prelude.{◌≡◌, ◌≤◌, get_or, drop, ◌||◌, eqb, IfOk};
ghost use Rattle.matching.specs.Refusals.{first_met};
ghost use Rattle.matching.specs.Results.{refused_by};
ghost use Rattle.cue_fields.specs.declared.Due.TheVariants.{Phrase, Ordinal, Title, Dates, House};
ghost use Rattle.cue_fields.specs.Field.{tag_of, allowed, number_in, mark_in, value_tests, body_tests, field_length, field_refusal, FieldRead};
ghost use Rattle.cue_fields.specs.Form.{optional, stands, DueRead};

use matching::Refusal;

// Which field of a cue is due.
#[derive(Clone, Copy, Debug, PartialEq, Eq)]
pub enum Due {
    Phrase,
    Ordinal,
    Title,
    Dates,
    House,
}

// A part of a book, from `start` up to `end`.
#[derive(Clone, Copy, Debug, PartialEq, Eq)]
pub struct Span {
    pub start: usize,
    pub end: usize,
}

// Whether a byte is the tag of the field that is due.
fn is_tag(due: Due, byte: u8) -> bool
    ensures { result ≡ eqb byte (tag_of due) }
{
    match due {
        Due::Phrase => byte == 1,
        Due::Ordinal => byte == 2,
        Due::Title => byte == 3,
        Due::Dates => byte == 4,
        Due::House => byte == 5,
    }
}

// Whether a field's body may have this length.
fn is_allowed(due: Due, length: usize) -> bool
    ensures { result ≡ allowed due length }
{
    match due {
        Due::Phrase => 1 <= length && length <= 1024,
        Due::Ordinal => length == 2,
        Due::Title => length <= 200,
        Due::Dates => length == 4,
        Due::House => length == 1,
    }
}

// The byte at an index; one that is missing counts as 0.
fn byte_at(bytes: &[u8], index: usize) -> u8
    ensures { result ≡ get_or bytes.now index 0 }
{
    bytes.get(index).copied().unwrap_or(0)
}

// The number whose two bytes stand at the front, high byte first; a byte that is missing counts as 0. Not by `u16::from_be_bytes`: compared in 16 bits, a length makes a walk over a book a tenth slower.
#[tactic(auto, unfolding(crate::specs::Field::number_in))]
pub fn number_at(bytes: &[u8]) -> usize
    ensures value { result ≡ number_in bytes.now }
    ensures fits { result ≤ 65535 }
{
    256 * usize::from(byte_at(bytes, 0)) + usize::from(byte_at(bytes, 1))
}

// The number whose two bytes stand so many bytes on.
#[tactic(auto, unfolding(crate::specs::Field::number_in))]
pub fn number_from(bytes: &[u8], from: usize) -> usize
    ensures value { result ≡ number_in (drop from bytes.now) }
    ensures fits { result ≤ 65535 }
{
    number_at(bytes.get(from..).unwrap_or(&[]))
}

// The house mark whose byte stands at the front; a byte that is missing counts as 0.
pub fn mark_at(bytes: &[u8]) -> u8
    ensures { result ≡ mark_in bytes.now }
{
    byte_at(bytes, 0)
}

// The test of an ordinal by its body: it is not 0.
#[tactic(auto, unfolding(matching::specs::Refusals::first_met))]
fn ordinal_refused(body: &[u8]) -> Result<(), Refusal>
    ensures { refused_by result ≡ first_met (value_tests Ordinal body.now) }
{
    if number_at(body) == 0 {
        return Err(Refusal::BadField);
    }
    Ok(())
}

// The tests of dates by their body: the first day and the last.
#[tactic(auto, unfolding(calendar::specs::Calendar::days_refusal))]
fn dates_refused(body: &[u8]) -> Result<(), Refusal>
    ensures { refused_by result ≡ first_met (value_tests Dates body.now) }
{
    let first = number_at(body) as u32;
    let last = number_from(body, 2) as u32;
    calendar::days_refused(first, last)
}

// The test of a house mark by its body: it is 0 or 1.
#[tactic(auto, unfolding(matching::specs::Refusals::first_met))]
fn house_refused(body: &[u8]) -> Result<(), Refusal>
    ensures { refused_by result ≡ first_met (value_tests House body.now) }
{
    if 1 < mark_at(body) {
        return Err(Refusal::BadField);
    }
    Ok(())
}

// The tests of a body by its value.
#[tactic(auto, unfolding(matching::specs::Refusals::first_met))]
fn value_refused(body: &[u8], due: Due) -> Result<(), Refusal>
    ensures { refused_by result ≡ first_met (value_tests due body.now) }
{
    match due {
        Due::Phrase | Due::Title => Ok(()),
        Due::Ordinal => ordinal_refused(body),
        Due::Dates => dates_refused(body),
        Due::House => house_refused(body),
    }
}

// The tests of the bytes from a field's body onward: the body is present, and its value.
#[tactic(auto, unfolding(matching::specs::Refusals::first_met))]
fn body_refused(bytes: &[u8], due: Due, length: usize) -> Result<(), Refusal>
    ensures { refused_by result ≡ first_met (body_tests due length bytes.now) }
{
    let body = bytes.get(..length).ok_or(Refusal::CutField)?;
    value_refused(body, due)
}

// The tests of the field that is due at the front of what is left of a book, and its body's length.
#[tactic(auto, unfolding(matching::specs::Refusals::first_met, crate::specs::Field::field_refusal))]
fn body_length(rest: &[u8], due: Due) -> Result<usize, Refusal>
    ensures refusal { refused_by result ≡ field_refusal due rest.now }
    ensures length { IfOk result (λ n. n ≡ field_length rest.now) }
{
    if rest.len() < 3 {
        return Err(Refusal::CutField);
    }
    if !is_tag(due, rest[0]) {
        return Err(Refusal::WrongTag);
    }
    let length = number_at(&rest[1..]);
    if !is_allowed(due, length) {
        return Err(Refusal::BadField);
    }
    body_refused(&rest[3..], due, length)?;
    Ok(length)
}

// Reads the field that is due at a place of a book: the part where its body stands, whose end is the place after the field. A place past the book's end, however large, has no byte of a field.
pub fn read_field(book: &[u8], place: usize, due: Due) -> Result<Span, Refusal>
    ensures { FieldRead book.now place due result }
{
    if book.len() < place {
        return Err(Refusal::CutField);
    }
    let length = body_length(&book[place..], due)?;
    let start = place + 3;
    Ok(Span {
        start,
        end: start + length,
    })
}

// Reads the phrase, the ordinal or the title of a cue. Each is a function of its own, since the compiler then makes its tests a few comparisons: a walk over a book takes less than half the time.
pub fn read_phrase(book: &[u8], place: usize) -> Result<Span, Refusal>
    ensures { FieldRead book.now place Phrase result }
{
    read_field(book, place, Due::Phrase)
}

pub fn read_ordinal(book: &[u8], place: usize) -> Result<Span, Refusal>
    ensures { FieldRead book.now place Ordinal result }
{
    read_field(book, place, Due::Ordinal)
}

pub fn read_title(book: &[u8], place: usize) -> Result<Span, Refusal>
    ensures { FieldRead book.now place Title result }
{
    read_field(book, place, Due::Title)
}

// Whether a field may be left out.
fn is_optional(due: Due) -> bool
    ensures { result ≡ optional due }
{
    matches!(due, Due::Dates | Due::House)
}

// Whether the field that is due stands at a place of a book: one that may be left out does where the next byte is its tag.
fn stands_at(book: &[u8], place: usize, due: Due) -> bool
    ensures { result ≡ stands due (drop place book.now) }
{
    !is_optional(due) || (place < book.len() && is_tag(due, book[place]))
}

// Whether a field that may be left out stands at a place of a book.
pub fn more_at(book: &[u8], place: usize) -> bool
    ensures { result ≡ (stands Dates (drop place book.now) || stands House (drop place book.now)) }
{
    stands_at(book, place, Due::Dates) || stands_at(book, place, Due::House)
}

// Reads the field that is due at a place of a book, or passes it over where it is left out: its body is then the empty part at the place.
pub fn read_due(book: &[u8], place: usize, due: Due) -> Result<Span, Refusal>
    ensures { DueRead book.now place due result }
{
    if stands_at(book, place, due) {
        read_field(book, place, due)
    } else {
        Ok(Span {
            start: place,
            end: place,
        })
    }
}
