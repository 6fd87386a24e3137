// Late cuts (document 02, (xiii)): a stretch of the text is replaced, and a phrase's list for the new text is made from its list for the old one.
// It depends on `cuts` for the refusals, on `matching` for the problem and the lent list, on `naive` for the fresh places, and on `pieces` to lay letters from both sides of a seam out together.
// The new letters are searched where they lie, and only letters at a seam are copied: at most 1,023 from each of three parts.
#![tactic(auto)]

ghost use Rattle.std.specs.Prelude.{◌≡◌, true, [], ◌∷◌, ◌++◌, map, ◌+◌, ◌*◌, ◌-◌, ◌≤◌, ◌<◌, length, take, drop, pos, ◌-ℤ◌};
ghost use Rattle.matching.specs.Occurrences.{occurrences};
ghost use Rattle.matching.specs.Joined.{those, moved_up};
ghost use Rattle.matching.specs.Results.{answer as told};
ghost use Rattle.cuts.specs.Cuts.{cut, rises};
ghost use Rattle.late_cuts.specs.Asked.{Small, Moves, Puts};
ghost use Rattle.late_cuts.specs.LateCuts.{stays, moves, moved_by, fresh, Relisted};

use matching::Refusal;

// Adds a number to each of the first `count` entries of a list, or to all where it has fewer.
#[tactic(auto, using(crate::proofs::Lists::entry_by_entry))]
fn add_to_each(list: &mut [u32], count: usize, number: u32)
    requires number_bound { number ≤ 32768 }
    requires small { Small count list.old }
    ensures { list.new ≡ moved_up number (take count list.old) ++ drop count list.old }
{
    for i in 0..count.min(list.len()) {
        list[i] += number;
    }
}

// Lays three pieces out one after another at the front of a room that is long enough for them: what it has there then.
fn lay_out<'a>(room: &'a mut [u8], before: &[u8], letters: &[u8], after: &[u8]) -> &'a [u8]
    requires { length before.now + length letters.now + length after.now ≤ length room.old }
    ensures { result.now ≡ before.now ++ letters.now ++ after.now }
{
    let one = pieces::put_bytes(room, 0, before);
    let two = pieces::put_bytes(room, one, letters);
    let three = pieces::put_bytes(room, two, after);
    &room[..three]
}

// The signed difference of two lengths.
fn difference(gained: usize, lost: usize) -> i32
    requires gained_bound { gained ≤ 32768 }
    requires lost_bound { lost ≤ 32768 }
    ensures { result ≡ pos gained -ℤ pos lost }
{
    gained as i32 - lost as i32
}

// A place moved by a signed number, which does not take it below 0.
fn moved(place: u32, by: i32) -> u32
    requires { Moves place by }
    ensures { result ≡ moved_by by place }
{
    let sum = place as i32 + by;
    sum as u32
}

// The answer, and how many places were put: into it, and past its end where it is too short for them.
#[derive(Drop)]
struct Listing<'a> {
    list: &'a mut [u32],
    total: usize,
}

// The phrase's bounds stand in three contracts: a struct for it, with a ghost field, would be longer than those five clauses.
impl Listing<'_> {
    // Puts one place.
    fn put(&mut self, place: u32)
        requires { self.old.total ≤ 163840 }
        ensures { Puts self.old (place ∷ []) self.new }
    {
        matching::store(self.list, self.total, place);
        self.total += 1;
    }

    // Puts the places of a list that stay. The list rises, so the first that does not stay ends them.
    #[tactic(auto, using(crate::proofs::Lists::place_by_place))]
    fn put_staying(&mut self, list: &[u32], m: usize, start: usize)
        requires m_bound { m ≤ 1024 }
        requires list_value { rises list.now ≡ true }
        requires list_len_bound { length list.now ≤ 32768 }
        requires total_bound { self.old.total ≤ 131072 }
        ensures { Puts self.old (those (stays m start) list.now) self.new }
    {
        for place in list {
            if start < *place as usize + m {
                return;
            }
            self.put(*place);
        }
    }

    // Finds the phrase in a part of the new text, which stands there from `place` on, and puts where it stands in the new text.
    #[tactic(auto, using(crate::proofs::Fresh::not_refused))]
    fn find_part(&mut self, phrase: &[u8], part: &[u8], place: usize)
        requires phrase_some { 1 ≤ length phrase.now }
        requires phrase_bound { length phrase.now ≤ 1024 }
        requires part_bound { length part.now ≤ 32768 }
        requires place_bound { place ≤ 32768 }
        requires total_bound { self.old.total ≤ 131072 }
        ensures { Puts self.old (moved_up place (occurrences phrase.now part.now)) self.new }
    {
        let from = self.total.min(self.list.len());
        let rest = &mut self.list[from..];
        let Ok(found) = naive::find(phrase, part, &mut [], rest) else {
            unreachable!()
        };
        add_to_each(rest, found.total as usize, place as u32);
        self.total += found.total as usize;
    }

    // The same for a part in three pieces, of which the first and the last are shorter than the phrase, and the letters between them of any number. Letters that are shorter than the
    // phrase too are laid out with the others; longer ones are searched where they lie, between their two seams.
    fn find_around<const ROOM: usize>(
        &mut self,
        phrase: &[u8],
        before: &[u8],
        letters: &[u8],
        after: &[u8],
        place: usize,
    )
        requires phrase_bound { length phrase.now ≤ 1024 }
        requires phrase_in_bounds { 3 * (length phrase.now - 1) ≤ ROOM }
        requires room_bound { ROOM ≤ 32768 }
        requires before_in_bounds { length before.now < length phrase.now }
        requires after_in_bounds { length after.now < length phrase.now }
        requires letters_bound { place + length before.now + length letters.now ≤ 32768 }
        requires total_bound { self.old.total ≤ 32768 }
        ensures { Puts self.old (moved_up place (occurrences phrase.now (before.now ++ letters.now ++ after.now))) self.new }
    {
        let mut room = [0; ROOM];
        let side = phrase.len() - 1;
        if letters.len() <= side {
            let all = lay_out(&mut room, before, letters, after);
            self.find_part(phrase, all, place);
            return;
        }
        let seam = place + before.len();
        let tail = letters.len() - side;
        let first = lay_out(&mut room, before, b"", &letters[..side]);
        self.find_part(phrase, first, place);
        self.find_part(phrase, letters, seam);
        let last = lay_out(&mut room, &letters[tail..], b"", after);
        self.find_part(phrase, last, seam + tail);
    }

    // Puts the fresh places. Room for the letters of long phrases would take short ones longer to clear than to search.
    #[tactic(auto, using(crate::proofs::Fresh::are_fresh))]
    fn put_fresh(&mut self, phrase: &[u8], text: &[u8], start: usize, end: usize, letters: &[u8])
        requires phrase_some { 1 ≤ length phrase.now }
        requires phrase_bound { length phrase.now ≤ 1024 }
        requires start_le_end { start ≤ end }
        requires end_in_bounds { end ≤ length text.now }
        requires letters_bound { start + length letters.now ≤ 32768 }
        requires total_bound { self.old.total ≤ 32768 }
        ensures { Puts self.old (fresh phrase.now text.now (cut start end letters.now)) self.new }
    {
        let most = phrase.len() - 1;
        let from = start.saturating_sub(most);
        let to = text.len().min(end + most);
        let before = &text[from..start];
        let after = &text[end..to];
        if most <= 64 {
            self.find_around::<192>(phrase, before, letters, after, from);
        } else {
            self.find_around::<3069>(phrase, before, letters, after, from);
        }
    }

    // Puts the places of a list that move, each by the signed difference of the letters gained and lost.
    fn put_moved(&mut self, list: &[u32], end: usize, gained: usize, lost: usize)
        requires lost_bound { lost ≤ end }
        requires lost_small { lost ≤ 32768 }
        requires gained_bound { gained ≤ 32768 }
        requires small { Small (length list.now) list.now }
        requires list_len_bound { length list.now ≤ 32768 }
        requires total_bound { self.old.total ≤ 131072 }
        ensures { Puts self.old (map (moved_by (pos gained -ℤ pos lost)) (those (moves end) list.now)) self.new }
    {
        let by = difference(gained, lost);
        for place in list {
            if end <= *place as usize {
                self.put(moved(*place, by));
            }
        }
    }
}

// Makes a phrase's list for the new text from the list given for the old one: its full total.
// A cut stays three parameters: this signature is named in README.md and may not change.
pub fn relist(
    phrase: &[u8],
    text: &[u8],
    list: &[u32],
    start: usize,
    end: usize,
    letters: &[u8],
    answer: &mut [u32],
) -> Result<u32, Refusal>
    ensures { Relisted phrase.now text.now list.now (cut start end letters.now) answer.old (told result) answer.new }
{
    cuts::refused(phrase, text, list, start, end, letters)?;
    let mut listing = Listing {
        list: answer,
        total: 0,
    };
    listing.put_staying(list, phrase.len(), start);
    let stay = listing.total;
    listing.put_fresh(phrase, text, start, end, letters);
    let lost = end - start;
    listing.put_moved(&list[stay..], end, letters.len(), lost);
    Ok(listing.total as u32)
}
