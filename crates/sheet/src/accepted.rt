// A job that is accepted, wall by wall: the line of each, the lines of all in numbers and as text, and what is drawn of one.
ghost use Rattle.std.specs.Prelude.{◌≡◌, [], ◌<◌, ◌*◌, ◌≤◌, suc, true, Err, get_or, length, MatchResult};
ghost use Rattle.job.specs.Places.{place_table};
ghost use Rattle.rules.specs.JobFile.{most_walls, wall_count, entries};
ghost use Rattle.rules.specs.Answered.{accepted, first_refusal};
ghost use Rattle.rules.specs.Drawing.{drawn};
ghost use Rattle.rules.specs.SheetLine.{line_numbers, sheet, joined, printed};
ghost use Rattle.rules.specs.Beyond.{Put, sheet_room, onto};

use crate::figures;
use job::PlaceTable;
use rules::{Drawn, LINE, LineNumbers, Refusal};

// The job's bytes, and how many walls there are.
#[derive(Clone, Copy)]
pub struct AcceptedJob<'a> {
    file: &'a [u8],
    pub walls: u32,
    ghost accepted: { accepted file.now ≡ true },
    ghost counted: { walls ≡ wall_count file.now },
    ghost few: { walls ≤ most_walls },
}

// The job, and where among its bytes the loads of each wall stand. They are looked for in one pass over all walls.
#[derive(Drop)]
struct PlacedJob<'a> {
    job: AcceptedJob<'a>,
    places: PlaceTable,
    ghost placed: { places ≡ place_table (entries job.file.now) },
}

impl<'a> AcceptedJob<'a> {
    // The job that a file has, or the file's refusal.
    pub fn of(file: &'a [u8]) -> Result<AcceptedJob<'a>, Refusal>
        ensures { MatchResult result (λ job. job.file.now ≡ file.now) (λ refusal. first_refusal file.now ≡ Err refusal) }
    {
        job::first_refusal(file)?;
        Ok(AcceptedJob {
            file,
            walls: u32::from(job::wall_count(file)),
        })
    }

    // The job with its loads found. It is inlined, since the table of places is many numbers to copy.
    #[inline(always)]
    fn placed(&self) -> PlacedJob<'a>
        ensures { (result.job.file.now ≡ self.now.file.now) × (result.job.walls ≡ self.now.walls) }
    {
        PlacedJob {
            job: *self,
            places: job::places(self.file),
        }
    }

    // What follows needs the table of places. It is made here, behind the tests, as a function clears its room for the table before it does anything else:
    // so a refusal doesn't pay for it.

    // The lines of every wall, one behind the other.
    pub fn put_lines(&self, out: &mut [i64])
        requires { line_numbers * self.now.walls ≤ length out.old }
        ensures { out.new ≡ onto (joined (sheet self.now.file.now)) out.old }
    {
        self.placed().put_lines(out);
    }

    // The texts of every wall's line, one behind the other; and how many bytes they took.
    pub fn put_texts(&self, out: &mut [u8]) -> usize
        requires { sheet_room ≤ length out.old }
        ensures { Put (printed self.now.file.now) out.old result out.new }
    {
        self.placed().put_texts(out)
    }

    // What is drawn of the wall at an index from 0.
    pub fn drawn(&self, i: u32) -> Drawn
        requires { i < self.now.walls }
        ensures { result ≡ drawn self.now.file.now (suc i) }
    {
        self.placed().drawn(i)
    }
}

impl PlacedJob<'_> {
    // The line of the wall at an index from 0.
    fn line(&self, i: u32) -> LineNumbers
        requires { i < self.now.job.walls }
        ensures { result ≡ get_or (sheet self.now.job.file.now) i [] }
    {
        let wall = job::wall_at(self.job.file, i);
        let loads = job::loads_at(self.job.file, self.places[i as usize]);
        wall::line(i + 1, wall, loads).unwrap()
    }

    // The lines of every wall, one behind the other.
    fn put_lines(&self, out: &mut [i64])
        requires { line_numbers * self.now.job.walls ≤ length out.old }
        ensures { out.new ≡ onto (joined (sheet self.now.job.file.now)) out.old }
    {
        for i in 0..self.job.walls {
            let at = LINE * i as usize;
            out[at..at + LINE].copy_from_slice(&self.line(i));
        }
    }

    // The texts of every wall's line, one behind the other; and how many bytes they took.
    fn put_texts(&self, out: &mut [u8]) -> usize
        requires { sheet_room ≤ length out.old }
        ensures { Put (printed self.now.job.file.now) out.old result out.new }
    {
        let mut used = 0;
        for i in 0..self.job.walls {
            let numbers = self.line(i);
            used += text::line_text(numbers, &mut out[used..]);
        }
        used
    }

    // What is drawn of the wall at an index from 0.
    fn drawn(&self, i: u32) -> Drawn
        requires { i < self.now.job.walls }
        ensures { result ≡ drawn self.now.job.file.now (suc i) }
    {
        let wall = job::wall_at(self.job.file, i);
        let loads = job::loads_at(self.job.file, self.places[i as usize]);
        let borne = bearing::blocks(wall, loads).unwrap();
        Drawn {
            drawing: figures::drawing_of(borne.forces.service),
            shape: figures::shape_of(borne.service),
        }
    }
}
