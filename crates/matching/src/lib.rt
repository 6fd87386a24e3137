// The problem itself: what an occurrence is, what a lent list receives, how letters are compared, and what every engine promises.
// It depends on no other crate. Engines depend on it: they cite its definitions (specs/) in their contracts and its laws (proofs/) in their proofs.
// Document 01 calls a pattern a phrase and a position a place.
#![tactic(auto)]

mod refusal;

ghost use Rattle.std.specs.Prelude.{◌≡◌, ◌≤◌, length, set};
ghost use Rattle.matching.specs.Find.{refusal};
ghost use Rattle.matching.specs.Letters.{equal_pairs, compared_down};
ghost use Rattle.matching.specs.Results.{refused_by, finding, answer, fault_answer};

pub use refusal::Refusal;

// What a find gives back to C: a refusal number (0 for none), the full total of occurrences, and the letter comparisons made.
#[repr(C)]
#[derive(Clone, Copy)]
pub struct Finding {
    pub refusal: u32,
    pub total: u32,
    pub comparisons: u32,
}

// What a call gives back to C that answers with one number: a refusal number (0 for none), and that number.
#[repr(C)]
#[derive(Clone, Copy)]
pub struct Answer {
    pub refusal: u32,
    pub number: u32,
}

// What a find finds: the full total of occurrences, and the letter comparisons made.
#[derive(Clone, Copy, Debug, PartialEq, Eq)]
pub struct Tally {
    pub total: u32,
    pub comparisons: u32,
}

// Why a call on a book is refused, and the number that belongs to it, as the index of the cue that is at fault.
#[derive(Clone, Copy, Debug, PartialEq, Eq)]
pub struct Fault {
    pub refusal: Refusal,
    pub number: u32,
}

impl From<Result<Tally, Refusal>> for Finding {
    ghost from_gives = { λ found r. r ≡ finding found };

    fn from(found: Result<Tally, Refusal>) -> Finding {
        match found {
            Ok(tally) => Finding {
                refusal: 0,
                total: tally.total,
                comparisons: tally.comparisons,
            },
            Err(refusal) => Finding {
                refusal: refusal.into(),
                total: 0,
                comparisons: 0,
            },
        }
    }
}

impl From<Result<u32, Refusal>> for Answer {
    ghost from_gives = { λ told r. r ≡ answer told };

    fn from(told: Result<u32, Refusal>) -> Answer {
        match told {
            Ok(number) => Answer { refusal: 0, number },
            Err(refusal) => Answer {
                refusal: refusal.into(),
                number: 0,
            },
        }
    }
}

impl From<Result<u32, Fault>> for Answer {
    ghost from_gives = { λ told r. r ≡ fault_answer told };

    fn from(told: Result<u32, Fault>) -> Answer {
        match told {
            Ok(number) => Answer { refusal: 0, number },
            Err(fault) => Answer {
                refusal: fault.refusal.into(),
                number: fault.number,
            },
        }
    }
}

impl From<Refusal> for Fault {
    ghost from_gives = { λ refusal r. r ≡ record { refusal = refusal; number = 0 } };

    fn from(refusal: Refusal) -> Fault {
        Fault { refusal, number: 0 }
    }
}

// The tests of a find of m letters in n with a scratch of `has` entries where `needs` are needed, in the order of their numbers.
#[tactic(auto, unfolding(crate::specs::Refusals::first_met, crate::specs::Find::refusal))]
pub fn refused(m: usize, n: usize, has: usize, needs: usize) -> Result<(), Refusal>
    ensures { refused_by result ≡ refusal m n has needs }
{
    if m == 0 {
        return Err(Refusal::NoPhrase);
    }
    if 1024 < m {
        return Err(Refusal::LongPhrase);
    }
    if 32768 < n {
        return Err(Refusal::LongText);
    }
    if has < needs {
        return Err(Refusal::ShortScratch);
    }
    Ok(())
}

// Puts a number at an index of the lent list, where the list reaches that far; otherwise the list stays as it is.
pub fn store(list: &mut [u32], index: usize, number: u32)
    ensures { list.new ≡ set list.old index number }
{
    if index < list.len() {
        list[index] = number;
    }
}

// Compares first to last: how many letters at the front of a pattern and of a text are equal, up to the first unequal pair. By an index, since a chain of iterators takes half
// as long again here.
pub fn compare_up(pattern: &[u8], text: &[u8]) -> usize
    ensures value { result ≡ equal_pairs pattern.now text.now }
    ensures within { result ≤ length pattern.now }
{
    let most = pattern.len().min(text.len());
    for k in 0..most {
        if pattern[k] != text[k] {
            return k;
        }
    }
    most
}

// Compares last to first, from letter `count` of the pattern down: how many letters are equal. It compares none where the pattern or the
// text has no such letters. It counts up those that are equal, since a range that goes down takes up to twice as long here.
pub fn compare_down(pattern: &[u8], text: &[u8], start: usize, count: usize) -> usize
    ensures value { result ≡ compared_down pattern.now text.now start count }
    ensures within { result ≤ count }
{
    if pattern.len() < count {
        return 0;
    }
    if text.len() < count {
        return 0;
    }
    if text.len() - count < start {
        return 0;
    }
    for equal in 0..count {
        let k = count - equal - 1;
        if pattern[k] != text[start + k] {
            return equal;
        }
    }
    count
}
