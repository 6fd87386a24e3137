// This crate writes a cue, with its dates where it has any and its mark where it is for the house only (document 01, "Cue book, folding, lines"; document 02, (viii) and (xiv)).
// It depends on `cues` and `cue_book` for the format, on `cue_fields` for a field's bytes, on `calendar` for the days that there are, on `pieces` for laying the fields out, and on `matching` for the refusals and its tables of them.
// Demand 2 is carried by proofs/Inverse.antt: what is written reads back (`written-reads`), and what is accepted was so written (`accepted-written`).
#![tactic(auto)]

ghost use Rattle.std.specs.Prelude.{◌≡◌, ◌≤◌, length};
ghost use Rattle.matching.specs.Results.{refused_by, answer};
ghost use Rattle.pieces.specs.Pieces.{Laid, put_all};
ghost use Rattle.cue_fields.specs.declared.Due.TheVariants.{Dates, House};
ghost use Rattle.cue_fields.specs.Form.{due_bytes};
ghost use Rattle.cues.specs.Cue.{cue_with, days_body, mark_body, dates_refusal};
ghost use Rattle.cue_writer.specs.Writing.{mark_given, write_refusal, Written, field_pieces, due_pieces};

use cues::Days;
use matching::Refusal;

// The test of a cue's days.
fn dates_refused(days: Days) -> Result<(), Refusal>
    ensures { refused_by result ≡ dates_refusal days }
{
    match days {
        Days::Always => Ok(()),
        Days::Within { first, last } => calendar::days_refused(first, last),
    }
}

// The length of the dates: a cue that plays always has none.
fn dates_len(days: Days) -> usize
    ensures { result ≡ length (due_bytes Dates (days_body days)) }
{
    match days {
        Days::Always => 0,
        Days::Within { .. } => 7,
    }
}

// The length of the house mark: an open cue has none.
#[tactic(auto, unfolding(crate::specs::Writing::mark_given))]
fn mark_len(house: u32) -> usize
    ensures { result ≡ length (due_bytes House (mark_body (mark_given house))) }
{
    if house == 0 { 0 } else { 4 }
}

// The tests of a cue to be written into a buffer of so many bytes.
#[tactic(auto, unfolding(crate::specs::Writing::write_refusal, matching::specs::Refusals::first_met))]
fn write_refused(
    phrase: &[u8],
    ordinal: u32,
    title: &[u8],
    days: Days,
    house: u32,
    capacity: usize,
) -> Result<(), Refusal>
    ensures { refused_by result ≡ write_refusal (cue_with phrase.now ordinal title.now days (mark_given house)) house capacity }
{
    dates_refused(days)?;
    if phrase.is_empty() {
        return Err(Refusal::NoPhrase);
    }
    if 1024 < phrase.len() {
        return Err(Refusal::LongPhrase);
    }
    if ordinal == 0 {
        return Err(Refusal::BadField);
    }
    if 65535 < ordinal {
        return Err(Refusal::BadField);
    }
    if 200 < title.len() {
        return Err(Refusal::BadField);
    }
    if 1 < house {
        return Err(Refusal::BadField);
    }
    if capacity < 11 + phrase.len() + title.len() + dates_len(days) + mark_len(house) {
        return Err(Refusal::LongCue);
    }
    Ok(())
}

// Lays a field out in the buffer from `at` on: where the next one goes. The buffer and the place pass by themselves, as `pieces::put_bytes` takes them: a struct that borrows the buffer would be built and taken apart for the three functions here.
fn put_field(buffer: &mut [u8], at: usize, tag: u8, body: &[u8]) -> usize
    requires { length body.now ≤ 65535 }
    ensures { Laid buffer.new result (put_all buffer.old at (field_pieces tag body.now)) }
{
    let [high, low] = (body.len() as u16).to_be_bytes();
    let next = pieces::put_bytes(buffer, at, &[tag, high, low]);
    pieces::put_bytes(buffer, next, body)
}

// Lays the dates out in the buffer from `at` on, where the cue has any: where they end.
fn put_dates(buffer: &mut [u8], at: usize, days: Days) -> usize
    requires { dates_refusal days ≡ 0 }
    ensures { Laid buffer.new result (put_all buffer.old at (due_pieces Dates (days_body days))) }
{
    let Days::Within { first, last } = days else {
        return at;
    };
    let [first_high, first_low] = (first as u16).to_be_bytes();
    let [last_high, last_low] = (last as u16).to_be_bytes();
    let dates = [first_high, first_low, last_high, last_low];
    put_field(buffer, at, 4, &dates)
}

// Lays the house mark out in the buffer from `at` on, where the cue is for the house only: where the cue ends.
#[tactic(auto, unfolding(crate::specs::Writing::mark_given))]
fn put_mark(buffer: &mut [u8], at: usize, house: u32) -> usize
    ensures { Laid buffer.new result (put_all buffer.old at (due_pieces House (mark_body (mark_given house)))) }
{
    if house == 0 {
        return at;
    }
    put_field(buffer, at, 5, &[1])
}

// Writes a cue at the buffer's start, open with `house` 0 and for the house only with 1: its length, or the refusal.
pub fn write_cue(
    buffer: &mut [u8],
    phrase: &[u8],
    ordinal: u32,
    title: &[u8],
    days: Days,
    house: u32,
) -> Result<u32, Refusal>
    ensures { Written (cue_with phrase.now ordinal title.now days (mark_given house)) house buffer.old (answer result) buffer.new }
{
    write_refused(phrase, ordinal, title, days, house, buffer.len())?;
    let number = (ordinal as u16).to_be_bytes();
    let mut at = put_field(buffer, 0, 1, phrase);
    at = put_field(buffer, at, 2, &number);
    at = put_field(buffer, at, 3, title);
    at = put_dates(buffer, at, days);
    at = put_mark(buffer, at, house);
    Ok(at as u32)
}
