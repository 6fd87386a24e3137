// The resolver (document 01, "Cue book, folding, lines"; document 02, (iv), (vi) to (viii) and (xiv)): from the cues of a book that a role sees and that play on a day to place, line and column, as `outcome` defines it. The cues are
// resolved in groups, and each group walks the folded text once.
// It depends on `cue_fields`, `cues` and `cue_book` for the cues, on `fold`, on `phrases` and `automaton` for the walk of a group, on `line_column` for the line rule, on `tables` to clear the scratch,
// and on `matching` for the laws of lent lists and of occurrences.
#![tactic(auto)]

ghost use Rattle.std.specs.Prelude.{◌≡◌, ◌+◌, ◌≤◌, length, set};
ghost use Rattle.line_column.specs.LineColumn.{line_column};
ghost use Rattle.resolver.specs.Resolver.{resolving, Resolved};
ghost use Rattle.resolver.specs.Walking.{Remaining, NextRead, Gatherable, Gathered, Searchable, Searched, Puttable, Put, Begun, Grouped, Ready, Placed};

use cue_fields::Span;
use cues::Choice;
use line_column::LineColumn;
use matching::{Fault, Refusal};

// What resolving gives back, as C receives it: a refusal or 0, its number, and how many letters of the text were read.
#[repr(C)]
#[derive(Clone, Copy)]
pub struct Resolving {
    pub refusal: u32,
    pub number: u32,
    pub reads: u32,
}

// The chosen cues are all resolved: how many they are, and how many letters of the text were read.
#[derive(Clone, Copy)]
struct AllPlaced {
    cues: u32,
    reads: u32,
}

// They are not: why, with the number that goes with it, and how many letters of the text were read.
#[derive(Clone, Copy)]
struct Unresolved {
    fault: Fault,
    reads: u32,
}

impl From<Result<AllPlaced, Unresolved>> for Resolving {
    ghost from_gives = { λ told r. r ≡ resolving told };

    fn from(told: Result<AllPlaced, Unresolved>) -> Resolving {
        match told {
            Ok(all) => Resolving {
                refusal: 0,
                number: all.cues,
                reads: all.reads,
            },
            Err(not) => Resolving {
                refusal: not.fault.refusal.into(),
                number: not.fault.number,
                reads: not.reads,
            },
        }
    }
}

// A fault that is met before the text is read.
impl From<Fault> for Unresolved {
    ghost from_gives = { λ fault r. r ≡ record { fault = fault; reads = 0 } };

    fn from(fault: Fault) -> Unresolved {
        Unresolved { fault, reads: 0 }
    }
}

impl From<Refusal> for Unresolved {
    ghost from_gives = { λ refusal r. r ≡ record { fault = record { refusal = refusal; number = 0 }; reads = 0 } };

    fn from(refusal: Refusal) -> Unresolved {
        Unresolved {
            fault: Fault { refusal, number: 0 },
            reads: 0,
        }
    }
}

// What is resolved: for whom and for which day, by which page, the cues of which book, in which text, with its folded copy.
#[derive(Clone, Copy)]
struct Job<'a> {
    choice: Choice,
    page: u32,
    book: &'a [u8],
    text: &'a [u8],
    copy: &'a [u8],
}

// Where the walk stands in the book: the number of the next cue that the role sees, and a place that no chosen cue stands between.
#[derive(Clone, Copy)]
struct Cursor {
    number: usize,
    place: usize,
}

// The next cue that is chosen: the number that names it, its phrase as the part of the book where it stands, its ordinal, and the place after it.
#[derive(Clone, Copy)]
struct NextCue {
    number: usize,
    phrase: Span,
    ordinal: u32,
    end: usize,
}

// A group as it was read from the book: how many cues it has, and where the walk stands after them.
#[derive(Clone, Copy)]
struct CuesRead {
    count: usize,
    after: Cursor,
}

// A group whose cues were looked for: how many it has, where the walk stands after them, and the letters of the text that were read.
#[derive(Clone, Copy)]
struct GroupFound {
    count: usize,
    after: Cursor,
    reads: usize,
}

// A place of the text, with its line and column.
#[derive(Clone, Copy)]
struct Spot {
    place: u32,
    at: LineColumn,
}

// How far resolving has come: where the walk stands in the book, how many cues have their entries, the letters of the text that were read, and the spot of the last of these cues.
#[derive(Clone, Copy)]
struct Walk {
    cursor: Cursor,
    index: usize,
    reads: usize,
    spot: Spot,
}

// Reads on from a place of the book to the next cue that the role sees and that plays on the day. There is one. The next cue that the role sees has that number, and the others count on from it; one that the
// role does not see has none.
fn next_cue(choice: Choice, book: &[u8], cursor: Cursor) -> NextCue
    requires { Remaining choice book.now cursor.number cursor.place }
    ensures { NextRead choice book.now cursor.number cursor.place result }
{
    let mut index = cursor.number;
    let mut at = cursor.place;
    // a `while`, since each cue says where the next begins
    while at < book.len() {
        let Ok(cue) = cues::read_cue(book, at) else {
            // the whole book was read before
            unreachable!()
        };
        if cues::chosen(choice, cue.mark, cue.days) {
            return NextCue {
                number: index,
                phrase: cue.phrase,
                ordinal: cue.ordinal,
                end: cue.end,
            };
        }
        index += usize::from(cues::sees_mark(choice.role, cue.mark));
        at = cue.end;
    }
    // and a chosen cue is left
    unreachable!()
}

// Reads the next group from the book, where so many chosen cues are left: where each phrase starts, its length, the cue's ordinal, and its number. A cue that would be the 65th, or pass 4,096 phrase bytes, is
// left for the next group. The four stay arrays of numbers, since the automaton needs slices of them.
fn gather(
    choice: Choice,
    book: &[u8],
    cursor: Cursor,
    rest: usize,
    starts: &mut [usize],
    lens: &mut [usize],
    ordinals: &mut [u32],
    numbers: &mut [u32],
) -> CuesRead
    requires { Gatherable choice book.now cursor.number rest cursor.place starts.old lens.old ordinals.old numbers.old }
    ensures { Gathered choice book.now cursor.number cursor.place result starts.new lens.new ordinals.new numbers.new }
{
    let mut letters = 0;
    let mut after = cursor;
    for count in 0..rest {
        let cue = next_cue(choice, book, after);
        let len = cue.phrase.end - cue.phrase.start;
        letters += len;
        if !outcome::group_fits(count + 1, letters) {
            return CuesRead { count, after };
        }
        starts[count] = cue.phrase.start;
        lens[count] = len;
        ordinals[count] = cue.ordinal;
        numbers[count] = cue.number as u32;
        after = Cursor {
            number: cue.number + 1,
            place: cue.end,
        };
    }
    CuesRead { count: rest, after }
}

// Looks for the next group's cues in the folded text, in one walk. For each cue it leaves how many occurrences are missing up to the one that it names, 0 where that one was found, its place, and its
// number.
fn find_group(
    job: Job,
    cursor: Cursor,
    rest: usize,
    scratch: &mut [u16],
    left: &mut [u32],
    places: &mut [u32],
    numbers: &mut [u32],
) -> GroupFound
    requires { Searchable job.choice job.page job.book.now cursor.number rest cursor.place job.copy.now scratch.old left.old places.old numbers.old }
    ensures { Searched job.entry.choice job.entry.page job.entry.book.now cursor.number cursor.place job.entry.copy.now scratch.old result scratch.new left.new places.new numbers.new }
{
    let mut starts = [0; 64];
    let mut lens = [0; 64];
    let cues = gather(
        job.choice,
        job.book,
        cursor,
        rest,
        &mut starts,
        &mut lens,
        left,
        numbers,
    );
    let count = cues.count;
    let walked = automaton::locate(
        job.page,
        job.book,
        &starts[..count],
        &lens[..count],
        job.copy,
        scratch,
        &mut left[..count],
        &mut places[..count],
    );
    let Some(reads) = walked else {
        // a group that was gathered is accepted
        unreachable!()
    };
    GroupFound {
        count,
        after: cues.after,
        reads,
    }
}

// Puts a cue's three entries: place, line, column. Line and column are counted on from a known spot, and the cue's own is given back for the next cue.
fn put_entries(entries: &mut [u32], at: usize, text: &[u8], place: u32, known: Spot) -> Spot
    requires { (at ≤ 3000) × ((length text.now ≤ 32768) × (known.at ≡ line_column text.now known.place)) }
    ensures spot { result ≡ record { place = place; at = line_column text.now place } }
    ensures put { entries.new ≡ set (set (set entries.old at place) (at + 1) (line_column text.now place).line) (at + 2) (line_column text.now place).column }
{
    let here = line_column::line_column(
        text,
        place as usize,
        known.place as usize,
        known.at.line as u32,
        known.at.column as u32,
    );
    let line = here.line as u32;
    let column = here.column as u32;
    matching::store(entries, at, place);
    matching::store(entries, at + 1, line);
    matching::store(entries, at + 2, column);
    Spot { place, at: here }
}

// Puts the entries of a group's cues, the first of them with that index, up to the first one with a fault: one with occurrences missing, or whose place is not above that of the cue before it. The last spot, or
// the fault with that cue's number.
fn put_group(
    entries: &mut [u32],
    index: usize,
    text: &[u8],
    left: &[u32],
    places: &[u32],
    numbers: &[u32],
    known: Spot,
) -> Result<Spot, Fault>
    requires { Puttable text.now index left.now places.now numbers.now known }
    ensures { Put text.now index left.now places.now numbers.now known.place entries.old result entries.new }
{
    let mut last = known;
    for count in 0..left.len() {
        let before = index + count;
        let place = places[count];
        let number = numbers[count];
        outcome::cue_refused(left[count] == 0, before, last.place, place).map_err(|refusal| Fault {
            refusal,
            number,
        })?;
        last = put_entries(entries, 3 * before, text, place, last);
    }
    Ok(last)
}

// Resolves the next group, up to the first of its cues with a fault.
fn resolve_group(
    job: Job,
    walk: Walk,
    rest: usize,
    scratch: &mut [u16],
    entries: &mut [u32],
) -> Result<Walk, Unresolved>
    requires { Begun job.choice job.page job.book.now rest job.text.now job.copy.now scratch.old walk }
    ensures { Grouped job.entry.choice job.entry.page job.entry.book.now job.entry.text.now scratch.old entries.old walk result scratch.new entries.new }
{
    let mut left = [0; 64];
    let mut places = [0; 64];
    let mut numbers = [0; 64];
    let group = find_group(
        job,
        walk.cursor,
        rest,
        scratch,
        &mut left,
        &mut places,
        &mut numbers,
    );
    let count = group.count;
    let reads = walk.reads + group.reads;
    let total = reads as u32;
    let spot = put_group(
        entries,
        walk.index,
        job.text,
        &left[..count],
        &places[..count],
        &numbers[..count],
        walk.spot,
    )
    .map_err(|fault| Unresolved {
        fault,
        reads: total,
    })?;
    Ok(Walk {
        cursor: group.after,
        index: walk.index + count,
        reads,
        spot,
    })
}

// Resolves group by group, reading the book's cues once more, up to the first cue with a fault. So many are chosen.
fn resolve_groups(
    job: Job,
    cues: usize,
    scratch: &mut [u16],
    entries: &mut [u32],
) -> Result<AllPlaced, Unresolved>
    requires { Ready job.choice job.page job.book.now cues job.text.now job.copy.now scratch.old entries.old }
    ensures { Placed job.entry.choice job.entry.page job.entry.book.now job.entry.text.now scratch.old entries.old (resolving result) scratch.new entries.new }
{
    let mut walk = Walk {
        cursor: Cursor {
            number: 0,
            place: 0,
        },
        index: 0,
        reads: 0,
        spot: Spot {
            place: 0,
            at: LineColumn { line: 1, column: 1 },
        },
    };
    // a `while`, since each group says how many cues it has
    while walk.index < cues {
        walk = resolve_group(job, walk, cues - walk.index, scratch, entries)?;
    }
    Ok(AllPlaced {
        cues: walk.index as u32,
        reads: walk.reads as u32,
    })
}

// Resolves the cues that are chosen, as `resolve` does: the tests in their order, and then group by group.
fn resolve_chosen(
    choice: Choice,
    page: u32,
    book: &[u8],
    text: &[u8],
    copy: &mut [u8],
    scratch: &mut [u16],
    entries: &mut [u32],
) -> Result<AllPlaced, Unresolved>
    ensures { Resolved choice page book.now text.now copy.old scratch.old entries.old (resolving result) copy.new scratch.new entries.new }
{
    let n = text.len();
    outcome::refused(choice, page, n, copy.len(), scratch.len())?;
    let cues = cue_book::read_chosen(book, choice)? as usize;
    if entries.len() < 3 * cues {
        return Err(Refusal::ShortEntries.into());
    }
    fold::letters(page, text, copy)?;
    if cues == 0 {
        // no walk clears the scratch
        tables::set_all(scratch, 0);
        return Ok(AllPlaced { cues: 0, reads: 0 });
    }
    let job = Job {
        choice,
        page,
        book,
        text,
        copy: &copy[..n],
    };
    resolve_groups(job, cues, scratch, entries)
}

// Resolves the cues of a book that a role sees and that play on a day in a text, both folded by a page: 0 and the number of these cues, or the refusal and its number; and the letters that were read.
pub fn resolve(
    role: u32,
    day: u32,
    page: u32,
    book: &[u8],
    text: &[u8],
    copy: &mut [u8],
    scratch: &mut [u16],
    entries: &mut [u32],
) -> Resolving
    ensures { Resolved (record { role = role; day = day }) page book.now text.now copy.old scratch.old entries.old result copy.new scratch.new entries.new }
{
    resolve_chosen(
        Choice { role, day },
        page,
        book,
        text,
        copy,
        scratch,
        entries,
    )
    .into()
}
