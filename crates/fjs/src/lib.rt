// The Franek-Jennings-Smyth engine (source document 001, Algorithm 3): Sunday's move while the last letter differs, KMP's move once letters are equal.
// It depends on `fjs_steps` for its steps and demand 3's bound on them, on `matching`, and on `tables`, `letter_tables` and `border_tables` for the entries. Beside `find` it offers
// `find_moves`, which also lists by which rule the window moved.
#![tactic(auto)]

ghost use Rattle.std.specs.Prelude.{◌≡◌, ℕ, ◌+◌, ◌^◌, ◌<◌, ◌≤◌, length};
ghost use Rattle.matching.specs.Received.{received};
ghost use Rattle.matching.specs.Find.{refusal_of, Found};
ghost use Rattle.matching.specs.Results.{refused_by, finding as found};
ghost use Rattle.fjs_steps.specs.Fjs.{fjs, Bounded};
ghost use Rattle.fjs_steps.specs.Moves.{moves, told};
ghost use Rattle.fjs_steps.specs.Scratch.{Ready};
ghost use Rattle.fjs.specs.Listed.{finding, moves_finding, Listed};
ghost use Rattle.fjs.specs.Search.{prepared, number_of, after_move, Searched};
ghost use Rattle.std.proofs.Common.{lit≤};
ghost use Rattle.std.proofs.Math.Nat.{le_refl};

use matching::{Refusal, Tally};

// What a find with a list of moves gives back to C: what a find does, and the full total of moves.
#[repr(C)]
#[derive(Clone, Copy)]
pub struct MovesFinding {
    pub refusal: u32,
    pub total: u32,
    pub comparisons: u32,
    pub moves: u32,
}

// What such a find finds: the full total of occurrences, the letter comparisons made, and the full total of moves.
#[derive(Clone, Copy, Debug, PartialEq, Eq)]
pub struct MovesTally {
    pub total: u32,
    pub comparisons: u32,
    pub moves: u32,
}

impl From<Result<MovesTally, Refusal>> for MovesFinding {
    ghost from_gives = { λ found r. r ≡ moves_finding found };

    fn from(found: Result<MovesTally, Refusal>) -> MovesFinding {
        match found {
            Ok(tally) => MovesFinding {
                refusal: 0,
                total: tally.total,
                comparisons: tally.comparisons,
                moves: tally.moves,
            },
            Err(refusal) => MovesFinding {
                refusal: refusal.into(),
                total: 0,
                comparisons: 0,
                moves: 0,
            },
        }
    }
}

// Makes both tables: the scratch's first 256 entries are lent to the Sunday maker and the part from 256 on to the KMP maker.
fn make_tables(pattern: &[u8], scratch: &mut [u16])
    requires short { length pattern.now ≤ 1024 }
    requires room { 256 + (length pattern.now + 1) ≤ length scratch.old }
    ensures { scratch.new ≡ received scratch.old (fjs.tables pattern.now) }
{
    letter_tables::sunday_table(pattern, &mut scratch[..256]);
    border_tables::kmp_table(pattern, &mut scratch[256..]);
}

// The refusal of the call; where there is none, both tables are made.
fn prepare(pattern: &[u8], text: &[u8], scratch: &mut [u16]) -> Result<(), Refusal>
    ensures refused { refused_by result ≡ refusal_of fjs pattern.now text.now scratch.old }
    ensures made { scratch.new ≡ prepared pattern.now text.now scratch.old }
{
    matching::refused(
        pattern.len(),
        text.len(),
        scratch.len(),
        256 + (pattern.len() + 1),
    )?;
    make_tables(pattern, scratch);
    Ok(())
}

// By which rule the window moved. A list of moves has its number.
#[derive(Clone, Copy)]
enum Rule {
    Sunday,
    Kmp,
}

impl From<Rule> for u32 {
    ghost from_gives = { λ rule n. n ≡ number_of rule };

    fn from(rule: Rule) -> u32 {
        match rule {
            Rule::Sunday => 1,
            Rule::Kmp => 2,
        }
    }
}

// What is made of a search's moves: it is told of each, from which start to which, and by which rule.
trait Note {
    // how many moves it has counted; and it, after one move more
    ghost noted: { Self → ℕ };

    ghost after: { Self → ℕ → ℕ → ℕ → Self };

    fn note(&mut self, old: usize, new: usize, rule: Rule)
        requires few { noted self.old ≤ 32769 }
        requires small { (old < 2 ^ 32) × (new < 2 ^ 32) }
        ensures { self.new ≡ after self.old old new (number_of rule) };

    ghost one_more: { (n : Self) (old new rule : ℕ) → noted (after n old new rule) ≤ noted n + 1 };
}

// Nothing is made of them.
#[derive(Drop)]
struct Unnoted;

impl Note for Unnoted {
    ghost noted = { λ _. 0 };

    ghost after = { λ n _ _ _. n };

    fn note(&mut self, _old: usize, _new: usize, _rule: Rule) {}

    ghost one_more = { λ n old new rule. lit≤ tt };
}

// They are counted, and listed: the three numbers of each at its index, whole or not at all.
#[derive(Drop)]
struct MoveList<'a> {
    list: &'a mut [u32],
    count: usize,
}

impl Note for MoveList<'_> {
    ghost noted = { λ n. n.count };

    ghost after = { after_move };

    fn note(&mut self, old: usize, new: usize, rule: Rule) {
        let at = 3 * self.count;
        if at + 3 <= self.list.len() {
            self.list[at] = old as u32;
            self.list[at + 1] = new as u32;
            self.list[at + 2] = rule.into();
        }
        self.count += 1;
    }

    ghost one_more = { λ n old new rule. le_refl (n.count + 1) };
}

// Finds all occurrences, and tells of the moves. The window starts at s, and its first q letters are carried.
fn search<N: Note>(
    pattern: &[u8],
    text: &[u8],
    scratch: &[u16],
    list: &mut [u32],
    notes: &mut N,
) -> Tally
    requires ready { Ready pattern.now text.now scratch.now }
    requires none { N.noted notes.old ≡ 0 }
    ensures searched { Searched pattern.now text.now list.old result list.new }
    ensures told { notes.new ≡ told N.after notes.old (moves pattern.now text.now) }
    ensures few { N.noted notes.new ≤ length text.now + 1 }
{
    let m = pattern.len();
    let n = text.len();
    let end = m - 1;
    let mut total = 0;
    let mut compared = 0;
    let mut s = 0;
    let mut q = 0;
    while s + m <= n {
        let until = if q == 0 {
            compared += 1; // the look at the last letter
            if pattern[end] != text[s + end] {
                if n <= s + m {
                    break;
                }
                let next = s + scratch[text[s + m] as usize] as usize;
                notes.note(s, next, Rule::Sunday);
                s = next;
                continue;
            }
            end
        } else {
            m
        };
        let equal = matching::compare_up(&pattern[q..until], &text[s + q..s + until]);
        let mut k = q + equal;
        compared += equal;
        if k < until {
            compared += 1;
        } else {
            k = m;
            matching::store(list, total, s as u32);
            total += 1;
        }
        let b = scratch[256 + k] as usize;
        let next = s + (k + 1 - b);
        notes.note(s, next, Rule::Kmp);
        s = next;
        q = b.saturating_sub(1);
    }
    Tally {
        total: total as u32,
        comparisons: compared as u32,
    }
}

// Finds the pattern in the text; the scratch holds 256 Sunday entries and then the KMP entries b[1] to b[m + 1] afterwards.
pub fn find(
    pattern: &[u8],
    text: &[u8],
    scratch: &mut [u16],
    list: &mut [u32],
) -> Result<Tally, Refusal>
    ensures found { Found fjs pattern.now text.now scratch.old list.old (found result) scratch.new list.new }
    ensures bounded { Bounded pattern.now text.now (found result).comparisons }
{
    prepare(pattern, text, scratch)?;
    Ok(search(pattern, text, scratch, list, &mut Unnoted))
}

// Finds the pattern in the text as `find` does, and lists the moves: old start, new start, rule (1 Sunday, 2 KMP), the first whole moves that fit.
pub fn find_moves(
    pattern: &[u8],
    text: &[u8],
    scratch: &mut [u16],
    list: &mut [u32],
    moves: &mut [u32],
) -> Result<MovesTally, Refusal>
    ensures found { Found fjs pattern.now text.now scratch.old list.old (finding (moves_finding result)) scratch.new list.new }
    ensures bounded { Bounded pattern.now text.now (moves_finding result).comparisons }
    ensures moved { Listed pattern.now text.now scratch.old moves.old (moves_finding result) moves.new }
{
    prepare(pattern, text, scratch)?;
    let mut noted = MoveList {
        list: moves,
        count: 0,
    };
    let tally = search(pattern, text, scratch, list, &mut noted);
    Ok(MovesTally {
        total: tally.total,
        comparisons: tally.comparisons,
        moves: noted.count as u32,
    })
}
