//! Sets of writers: of the numbers by which coordinators sign what they write.

ghost use Rattle.std.specs.Prelude.{◌≡◌, ℕ};
ghost use Rattle.fm_share.specs.Shares.{is_in, is_writer, writers_of};

use fm_records::ids::CoordId;

/// A set of writers, which are numbered from 1 to 64. It allocates nothing.
#[derive(Debug, Clone, Copy, PartialEq, Eq, Drop)]
pub struct Writers {
    // Whether each number from 0 on is in the set; 0 is no writer's, and never is.
    is_listed: [bool; 65],
}

impl Writers {
    /// The set of the writers that are listed, in any order, each once or more often. O(n).
    pub fn of(listed: &[CoordId]) -> Writers
        ensures members { (n : ℕ) → is_writer result n ≡ is_in n listed.now }
        ensures value { result ≡ writers_of listed.now }
    {
        let mut is_listed = [false; 65];
        for writer in listed {
            is_listed[usize::from(writer.value())] = true;
        }
        Writers { is_listed }
    }

    /// Whether the number is one of the writers'; false at 0 and above 64. O(1).
    pub fn contains(&self, number: u8) -> bool
        ensures { result ≡ is_writer self.now number }
    {
        let number = usize::from(number);
        number < self.is_listed.len() && self.is_listed[number]
    }
}
