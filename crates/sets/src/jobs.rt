//! Sets of job numbers: a round of a sheet, and the numbers withheld from a task.
ghost use Rattle.std.specs.Prelude.{◌≡◌, ℕ, ◌≤◌, true, false, ◌||◌, ◌==◌};
ghost use Rattle.sets.specs.Jobs.{includes};
ghost use Rattle.sets.specs.Search.{Finds, listed};

/// A set of job numbers from 0 to 255, and one place of a sheet: job `j` is bit `j % 64` of word
/// `j / 64`.
#[derive(Clone, Copy)]
pub struct JobSet {
    pub words: [u64; 4],
}

impl JobSet {
    /// The set without members.
    pub fn empty() -> JobSet
        ensures { (j : ℕ) → includes result j ≡ false }
    {
        JobSet { words: [0; 4] }
    }

    /// The set of these job numbers.
    pub fn of(jobs: &[u8]) -> JobSet
        ensures { (j : ℕ) → includes result j ≡ listed jobs.now j }
    {
        // As in `FactSet::of`: a trait that says this once would be longer than both.
        let mut set = JobSet::empty();
        for job in jobs {
            set.insert(*job);
        }
        set
    }

    /// Whether `job` is a member.
    pub fn contains(&self, job: u8) -> bool
        ensures { result ≡ includes self.now job }
    {
        (self.words[job as usize / 64] >> (job % 64)) & 1 == 1
    }

    /// Makes `job` a member; the other members stay, and no other number becomes one.
    pub fn insert(&mut self, job: u8)
        ensures { (j : ℕ) → includes self.new j ≡ (includes self.old j || j == job) }
    {
        self.words[job as usize / 64] |= 1 << (job % 64);
    }

    /// The lowest member from `from` up, if there is one.
    pub fn next(&self, from: u16) -> Option<u8>
        ensures { Finds (λ j. (from ≤ j) × (includes self.now j ≡ true)) result }
    {
        for (w, word) in self.words.iter().enumerate() {
            let skip = from.saturating_sub(64 * w as u16);
            if skip < 64 {
                let rest = *word >> skip;
                if rest != 0 {
                    return Some((64 * w as u16 + skip + rest.trailing_zeros() as u16) as u8);
                }
            }
        }
        None
    }
}
