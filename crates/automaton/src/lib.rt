// A group's automaton (document 02, (vi)): up to 64 phrases of a book are looked for in one walk over a text, each letter of which is read once. The trie of the folded phrases grows level by level in
// a lent scratch, so that states are numbered by depth; each then gets its bits, its fail link and, as far as the scratch goes, its row of next states.
// It depends on `phrases` for the numbers of the phrases that end at a letter, on `tries` for what the table's entries mean, on `fold` for the phrases' letters, on `tables` to clear the scratch, and on
// `matching` for case analysis.
#![tactic(auto)]

ghost use Rattle.std.specs.Prelude.{◌≡◌, ◌↔◌, IsTrue, List, [], ◌∷◌, ℕ, suc, ◌+◌, ◌*◌, ◌^◌, ◌<◌, ◌≤◌, length, get_or, slice_get, set, replicate};
ghost use Rattle.fold.specs.Fold.{fold_on};
ghost use Rattle.phrases.specs.Phrases.{numbers};
ghost use Rattle.phrases.specs.Counts.{set_bits, hit, hits};
ghost use Rattle.tries.specs.Tables.{Inside, fail_at, added, Plain, Room, Extended};
ghost use Rattle.tries.specs.Group.{Group, Growing, Grown, Fits};
ghost use Rattle.tries.specs.Links.{bits_at, marked, joined, Linking, Failed, Marked};
ghost use Rattle.tries.specs.Rows.{classes_from, rows_from, class_at, Rows, Standing, Put, Lettered, Classed, Rowable, Overlaid, base, Finished, Rowed, Making, Next, Stepping};
ghost use Rattle.tries.specs.Steps.{child_of, state_after, step_on};
ghost use Rattle.automaton.specs.Walk.{Counters, Ahead, Good};
ghost use Rattle.automaton.specs.Locate.{Accepted, Counted, Answered};

// A state's entries: how many, and where its latest child, its sibling, its fail link and its bits stand among them; its letter is the first.
const STATE: usize = 8;

const CHILD: usize = 1;

const SIBLING: usize = 2;

const FAIL: usize = 3;

const BITS: usize = 4;

// Where the classes of the letters stand, behind 4,097 states, and where the rows begin.
const CLASSES: usize = 32776;

const ROWS: usize = 33032;

// ---- the trie

// The child of state s by letter c, 0 where it has none.
fn child(t: &[u16], s: usize, c: u16) -> usize
    requires { Inside t.now s }
    ensures { result ≡ child_of t.now s c }
{
    let mut x = t[STATE * s + CHILD] as usize;
    // from child to sibling, as the links go
    while 0 < x {
        if t[STATE * x] == c {
            return x;
        }
        x = t[STATE * x + SIBLING] as usize;
    }
    0
}

// State x is made a child of state s by letter c: its latest. For now its fail link holds its parent.
fn add(t: &mut [u16], s: usize, x: usize, c: u16)
    requires { (s < x) × ((x ≤ 65535) × (8 * x + 8 ≤ length t.old)) }
    ensures { t.new ≡ added t.old s x c }
{
    let sibling = t[STATE * s + CHILD];
    let at = STATE * x;
    t[at..at + STATE].fill(0);
    t[at] = c;
    t[at + SIBLING] = sibling;
    t[at + FAIL] = s as u16;
    t[STATE * s + CHILD] = x as u16;
}

// The child of state s by letter c; where it has none, state n is made one.
fn extend(t: &mut [u16], n: usize, s: usize, c: u16) -> usize
    requires { Room t.old n s (c ∷ []) }
    ensures { (names : List (List ℕ)) → Plain names t.old → length names ≡ n → Extended names t.old t.new s (c ∷ []) result }
{
    let x = child(t, s, c);
    if 0 < x {
        return x;
    }
    add(t, s, n, c);
    n
}

// One letter, folded by a page.
fn folded(page: u32, byte: u8) -> u8
    ensures { result ≡ fold_on page byte }
{
    if page == 15 {
        return fold::on_page_15(byte);
    }
    fold::on_page_1(byte)
}

// What each letter folds to by a page, so that the letters of phrases are looked up.
fn all_folded(page: u32) -> [u8; 256]
    ensures { (c : ℕ) → c < 256 → get_or result c 0 ≡ fold_on page c }
{
    let mut folds = [0; 256];
    for c in 0..256 {
        folds[c] = folded(page, c as u8);
    }
    folds
}

// A number that none of these is above.
fn longest(lens: &[usize]) -> usize
    ensures { (k : ℕ) → k < length lens.now → get_or lens.now k 0 ≤ result }
{
    lens.iter().copied().max().unwrap_or(0)
}

// The phrases of a group: the book that they stand in, the places of their first letters, their lengths, and what each letter folds to.
// Places and lengths are two lists, since `locate`, which is public, takes them so.
#[derive(Clone, Copy)]
struct Phrases<'a> {
    folds: &'a [u8; 256],
    book: &'a [u8],
    starts: &'a [usize],
    lens: &'a [usize],
    ghost group: { Group book.now starts.now lens.now },
}

impl Phrases<'_> {
    ghost use Rattle.automaton.specs.Words.{words};

    // Letter d of phrase i, folded; none where the phrase has no such letter.
    fn letter(self, i: usize, d: usize) -> Option<u8>
        requires { i < length self.starts.now }
        ensures { result ≡ slice_get (get_or (words self.entry) i []) d }
    {
        let start = self.starts[i];
        let letter = self.book[start..start + self.lens[i]].get(d)?;
        Some(self.folds[*letter as usize])
    }

    // One level more: letter d of each phrase that has one. n is the number of states before, the result that after.
    fn grow_level(self, t: &mut [u16], at: &mut [usize], n: usize, d: usize) -> usize
        requires { Growing (words self) t.old at.old n d 0 }
        ensures { Growing (words self.entry) t.new at.new result (suc d) 0 }
    {
        let mut count = n;
        for i in 0..self.starts.len() {
            if let Some(c) = self.letter(i, d) {
                let x = extend(t, count, at[i], c as u16);
                at[i] = x;
                count = count.max(x + 1);
            }
        }
        count
    }

    // The trie of the phrases. The result is the number of its states; `at`, which comes with zeros, gets the state of each phrase.
    fn grow(self, t: &mut [u16], at: &mut [usize]) -> usize
        requires { Fits (words self) t.old × (at.old ≡ replicate (length self.starts.now) 0) }
        ensures { Grown (words self.entry) t.new at.new result }
    {
        t[..STATE].fill(0);
        let mut n = 1;
        for d in 0..longest(self.lens) {
            n = self.grow_level(t, at, n, d);
        }
        n
    }

    // The same with the bits of the phrases.
    fn build(self, t: &mut [u16]) -> usize
        requires { (length self.starts.now ≤ 64) × Fits (words self) t.old }
        ensures { Marked (words self.entry) t.new result }
    {
        let mut states = [0; 64];
        let at = &mut states[..self.starts.len()];
        let n = self.grow(t, at);
        for (i, s) in at.iter().enumerate() {
            mark(t, *s, i);
        }
        n
    }
}

// ---- bits and fail links

// Sets bit i of a state that has none from bit i up.
fn mark(t: &mut [u16], s: usize, i: usize)
    requires { (8 * s + 8 ≤ length t.old) × ((i < 64) × (bits_at t.old s < 2 ^ i)) }
    ensures { t.new ≡ marked t.old s i }
{
    t[STATE * s + (BITS + i / 16)] += 1 << (i % 16);
}

// Makes f the fail link of state x, and joins its bits to those of x.
fn join(t: &mut [u16], x: usize, f: usize)
    requires { (f < x) × ((x ≤ 65535) × (8 * x + 8 ≤ length t.old)) }
    ensures { t.new ≡ joined t.old x f }
{
    t[STATE * x + FAIL] = f as u16;
    for j in BITS..STATE {
        t[STATE * x + j] |= t[STATE * f + j];
    }
}

// ---- classes of letters, and rows

// A class of its own for letter c, if it has none yet. w is one more than the classes so far, and so is the result.
fn classify(t: &mut [u16], c: usize, w: usize) -> usize
    requires { (c < 256) × ((w ≤ 65535) × (rows_from ≤ length t.old)) }
    ensures { (1 ≤ class_at t.old c → (t.new ≡ t.old) × (result ≡ w)) × (class_at t.old c ≡ 0 → (t.new ≡ set t.old (classes_from + c) w) × (result ≡ w + 1)) }
{
    if 0 < t[CLASSES + c] {
        return w;
    }
    t[CLASSES + c] = w as u16;
    w + 1
}

// The classes of the letters of n states; the result is one more than they are.
fn classes(t: &mut [u16], n: usize) -> usize
    requires { (1 ≤ n) × Lettered t.old n }
    ensures { Classed t.old t.new n result }
{
    t[CLASSES..ROWS].fill(0);
    let mut w = 1;
    for x in 1..n {
        let c = t[STATE * x] as usize;
        w = classify(t, c, w);
    }
    w
}

// The row of state s before its children are laid over it: that of its fail link, and zeros for the root.
fn base_row(t: &mut [u16], w: usize, s: usize)
    requires { (rows_from + (w * s + w) ≤ length t.old) × ((8 * s + 8 ≤ length t.old) × (1 ≤ s → fail_at t.old s < s)) }
    ensures { Put t.old t.new (rows_from + w * s) w (base t.old w s) }
{
    let to = ROWS + w * s;
    if s == 0 {
        t[to..to + w].fill(0);
    } else {
        let from = ROWS + w * t[STATE * s + FAIL] as usize;
        // by a loop, since `copy_from_slice` calls `memmove`, which an archive for C is not to need
        for k in 0..w {
            t[to + k] = t[from + k];
        }
    }
}

// Lays the children of state s over its row.
fn overlay(t: &mut [u16], w: usize, s: usize)
    requires { (names : List (List ℕ)) × Rowable names t.old w s }
    ensures { (names : List (List ℕ)) → Rowable names t.old w s → Overlaid names t.old t.new w s }
{
    let mut x = t[STATE * s + CHILD] as usize;
    // from child to sibling, as the links go
    while 0 < x {
        let c = t[STATE * x] as usize;
        let k = t[CLASSES + c] as usize;
        t[ROWS + (w * s + k)] = x as u16;
        x = t[STATE * x + SIBLING] as usize;
    }
}

// How many rows of w entries there is room for, n at most.
fn row_count(room: usize, w: usize, n: usize) -> usize
    requires { 1 ≤ w }
    ensures { (result ≤ n) × ((w * result ≤ room) × (1 ≤ n → w ≤ room → 1 ≤ result)) }
{
    (room / w).min(n)
}

// The fail links and joined bits of n states, and the rows of the first ones, of which the root has its row.
fn link(t: &mut [u16], shape: Shape, n: usize)
    requires { (1 ≤ shape.count) × ((ps : List (List ℕ)) × ((names : List (List ℕ)) × (Making ps names t.old shape.width shape.count 1 1 × (length names ≡ n)))) }
    ensures { (ps names : List (List ℕ)) → Making ps names t.old shape.width shape.count 1 1 → length names ≡ n → Making ps names t.new shape.width shape.count n shape.count }
{
    for x in 1..n {
        let count = x.min(shape.count);
        let made = Automaton {
            entries: t,
            shape: Shape { count, ..shape },
        };
        let f = made.fail_of(x);
        join(t, x, f);
        if x < shape.count {
            base_row(t, shape.width, x);
            overlay(t, shape.width, x);
        }
    }
}

// Fail links, joined bits and rows of n states.
fn finish(t: &mut [u16], n: usize) -> Shape
    requires { Finished t.old n }
    ensures { (ps names : List (List ℕ)) → Linking ps names 1 t.old → length names ≡ n → Rowed ps names t.new result.width result.count }
{
    let width = classes(t, n);
    let count = row_count(t.len() - ROWS, width, n);
    let shape = Shape { width, count };
    base_row(t, width, 0);
    overlay(t, width, 0);
    link(t, shape, n);
    shape
}

// ---- the walk

// The 64 bits of a state.
fn bits_of(t: &[u16], s: usize) -> u64
    requires { 8 * s + 8 ≤ length t.now }
    ensures { result ≡ bits_at t.now s }
{
    // part by part, with no loop: this is read at each letter of a text
    let at = STATE * s + BITS;
    let b0 = t[at] as u64;
    let b1 = t[at + 1] as u64;
    let b2 = t[at + 2] as u64;
    let b3 = t[at + 3] as u64;
    b0 + 65536 * (b1 + 65536 * (b2 + 65536 * b3))
}

// What one letter gives: the next state, and the number whose bits are the phrases that end with it.
#[derive(Clone, Copy)]
struct Letter {
    state: usize,
    ended: u64,
}

// The rows of an automaton: their width, and how many states have one.
#[derive(Clone, Copy)]
struct Shape {
    width: usize,
    count: usize,
}

// An automaton in a table, or as much of it as is made.
#[derive(Clone, Copy)]
struct Automaton<'a> {
    entries: &'a [u16],
    shape: Shape,
}

impl Automaton<'_> {
    // The state after letter c, by a row where the state has one; else by its child, or else from its fail link on.
    fn row_step(self, s: usize, c: u16) -> usize
        requires { Stepping self.entries.now self.shape.width self.shape.count s c }
        ensures { let a = self.entry in result ≡ state_after a.entries.now a.shape.width a.shape.count s c }
    {
        let t = self.entries;
        let mut at = s;
        // from fail link to fail link
        while self.shape.count <= at {
            let x = child(t, at, c);
            if 0 < x {
                return x;
            }
            at = t[STATE * at + FAIL] as usize;
        }
        let k = t[CLASSES + c as usize] as usize;
        t[ROWS + (self.shape.width * at + k)] as usize
    }

    // The fail link of state x, which holds its parent. The table's entries fit 16 bits, as whoever joins bits has to know.
    fn fail_of(self, x: usize) -> usize
        requires { Next self.entries.now self.shape.width self.shape.count x }
        ensures words { (i : ℕ) → get_or self.entry.entries.now i 0 < 2 ^ 16 }
        ensures failed { let a = self.entry in (ps names : List (List ℕ)) → Linking ps names x a.entries.now → Rows ps names a.shape.width a.shape.count a.entries.now → x < length names → Failed ps names x result }
    {
        let t = self.entries;
        let parent = t[STATE * x + FAIL] as usize;
        if parent == 0 {
            return 0;
        }
        self.row_step(t[STATE * parent + FAIL] as usize, t[STATE * x])
    }

    // The automaton's step.
    #[tactic(auto, using(crate::proofs::Stepping::standing_room))]
    fn read(self, s: usize, c: u8) -> Letter
        requires { Standing self.entries.now self.shape.width self.shape.count s }
        ensures { let a = self.entry in (result.state ≡ (step_on a.entries.now a.shape.width a.shape.count s c).state) × (result.ended ≡ (step_on a.entries.now a.shape.width a.shape.count s c).ended) }
    {
        let state = self.row_step(s, c as u16);
        Letter {
            state,
            ended: bits_of(self.entries, state),
        }
    }

    // One walk over the text: one step a letter, in order, from the root. The result is the number of steps.
    fn walk(self, text: &[u8], lens: &[usize], left: &mut [u32], place: &mut [u32]) -> usize
        requires { Ahead self.entries.now self.shape.width self.shape.count text.now lens.now left.old place.old }
        ensures { let a = self.entry in Counted (numbers (step_on a.entries.now a.shape.width a.shape.count) 0 text.now) lens.now left.old place.old result left.new place.new }
    {
        let mut state = 0;
        let mut reads = 0;
        for c in text {
            let letter = self.read(state, *c);
            state = letter.state;
            reads += 1;
            take_bits(left, place, lens, letter.ended, reads);
        }
        reads
    }
}

// Phrase k has ended: one less is left of its ordinal, and at the last one its place is kept.
// `left` and `place` pass as they are: of a struct of two `&mut` each contract would have to say also that it keeps its references.
#[tactic(auto, unfolding(phrases::specs::Counts::hit))]
fn count_down(left: &mut [u32], place: &mut [u32], k: usize, start: usize)
    requires { (k < length left.old) × ((k < length place.old) × (start ≤ 4294967295)) }
    ensures { record { left = left.exit.now; place = place.new } ≡ hit k start (record { left = left.entry.now; place = place.old }) }
{
    if 0 < left[k] {
        left[k] -= 1;
        if left[k] == 0 {
            place[k] = start as u32;
        }
    }
}

// The phrases whose bits are set, from the lowest bit up.
fn take_bits(left: &mut [u32], place: &mut [u32], lens: &[usize], bits: u64, end: usize)
    requires { Counters bits end lens.now left.old place.old }
    ensures { record { left = left.exit.now; place = place.new } ≡ hits end lens.now (set_bits bits) (record { left = left.entry.now; place = place.old }) }
{
    let mut b = bits;
    // from one bit that is set to the next
    while 0 < b {
        let k = b.trailing_zeros() as usize;
        count_down(left, place, k, end - lens[k]);
        b &= b - 1;
    }
}

// ---- the entry point

// Whether a phrase has a letter at least, and no more than there is room for, and stands in a book of so many letters.
fn stands(book: usize, start: usize, len: usize, room: usize) -> bool
    ensures { IsTrue result ↔ ((1 ≤ len) × (len ≤ room) × (start + len ≤ book)) }
{
    0 < len && len <= room && len <= book && start <= book - len
}

// Whether the phrases stand in the book, each with a letter at least, with 4,096 letters at most, whatever a letter folds to.
fn fits(book: &[u8], starts: &[usize], lens: &[usize]) -> bool
    requires { length starts.now ≡ length lens.now }
    ensures { (f : ℕ → ℕ) → (IsTrue result ↔ Good f book.now starts.now lens.now) }
{
    let mut room = 4096;
    for (start, len) in starts.iter().zip(lens) {
        if !stands(book.len(), *start, *len, room) {
            return false;
        }
        room -= *len;
    }
    true
}

// Whether a group is walked for.
fn accepted(
    page: u32,
    book: &[u8],
    starts: &[usize],
    lens: &[usize],
    text: &[u8],
    scratch: &[u16],
    left: &[u32],
    place: &[u32],
) -> bool
    ensures { IsTrue result ↔ Accepted page book.now starts.now lens.now text.now scratch.now left.now place.now }
{
    let count = starts.len();
    fold::is_page(page)
        && 0 < count
        && count <= 64
        && lens.len() == count
        && left.len() == count
        && place.len() == count
        && 65535 <= scratch.len()
        && text.len() <= 4294967295
        && fits(book, starts, lens)
}

// Looks for all phrases of a group in one walk over a folded text: `left` comes with the ordinals and `place` gets the places. The result is the number of letters that were read. A group that is not
// accepted leaves all as before, and there is none.
pub fn locate(
    page: u32,
    book: &[u8],
    starts: &[usize],
    lens: &[usize],
    text: &[u8],
    scratch: &mut [u16],
    left: &mut [u32],
    place: &mut [u32],
) -> Option<usize>
    ensures { Answered page book.now starts.now lens.now text.now scratch.old left.old place.old result scratch.new left.new place.new }
{
    if !accepted(page, book, starts, lens, text, scratch, left, place) {
        return None;
    }
    let folds = all_folded(page);
    let phrases = Phrases {
        folds: &folds,
        book,
        starts,
        lens,
    };
    let n = phrases.build(scratch);
    let shape = finish(scratch, n);
    let automaton = Automaton {
        entries: scratch,
        shape,
    };
    let reads = automaton.walk(text, lens, left, place);
    tables::set_all(scratch, 0);
    Some(reads)
}
