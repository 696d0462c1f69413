// Document 01, "What is answered": records of walls and loads, wherever they stand, and the first of them that is refused.
ghost use Rattle.std.specs.Prelude.{ℕ, List, [], ◌≡◌, ◌<◌, ◌≤◌, length, get_or};
ghost use Rattle.rules.specs.JobFile.{Wall, Entry, most_walls};
ghost use Rattle.rules.specs.Answered.{first_bad_wall, entry_fits, first_bad_load};
ghost use Rattle.job.specs.Lengths.{lengths_of};

use record::{COUNTS, Entry, WALL_NUMBER, Wall};
use rules::Answer;

// Walls and loads as records. A wall and an entry are asked for by an index from 0; behind the last one, any numbers may be answered.
pub trait Records {
    ghost walls: { Self → List Wall };

    ghost entries: { Self → List Entry };

    fn wall_count(&self) -> u16
        ensures { result ≡ length (walls self.now) };

    fn wall_at(&self, i: u32) -> Wall
        ensures { i < length (walls self.now) → result ≡ get_or (walls self.now) i [] };

    // The lengths of a wall, by which its loads are judged, and 0 for every other field.
    fn lengths_at(&self, i: u32) -> Wall
        ensures { i < length (walls self.now) → result ≡ lengths_of (get_or (walls self.now) i []) };

    fn entry_count(&self) -> u16
        ensures { result ≡ length (entries self.now) };

    fn entry_at(&self, i: u32) -> Entry
        ensures { i < length (entries self.now) → result ≡ get_or (entries self.now) i [] };

    // There are no more walls than a file may have.
    ghost few_walls: { (records : Self) → length (walls records) ≤ most_walls };

    // 5: the first wall with a field out of range is refused.
    final fn check_walls(&self) -> Answer
        ensures { result ≡ first_bad_wall 1 (walls self.now) }
    {
        for i in 0..self.wall_count() {
            record::wall_answer(self.wall_at(u32::from(i)), i + 1)?;
        }
        Ok(())
    }

    // 6: is there a wall that the entry's load is on, and does the load fit it? That goes by the wall's lengths alone.
    final fn entry_fits(&self, entry: Entry) -> bool
        ensures { result ≡ entry_fits (walls self.now) entry }
    {
        let number = entry[WALL_NUMBER];
        if number < 1 || u32::from(self.wall_count()) < number {
            return false;
        }
        record::load_fits(self.lengths_at(number - 1), record::load_of(entry))
    }

    // 6 and 7: the first load that is out of range, or is one more than its wall may have, is refused.
    final fn check_loads(&self) -> Answer
        ensures { result ≡ first_bad_load (walls self.now) [] 1 (entries self.now) }
    {
        let mut counts = [0u32; COUNTS];
        for i in 0..u32::from(self.entry_count()) {
            let entry = self.entry_at(i);
            let number = entry[WALL_NUMBER];
            let passed = record::count_on(counts, number);
            record::load_answer(self.entry_fits(entry), passed, i + 1)?;
            counts[number as usize] = passed + 1;
        }
        Ok(())
    }
}
