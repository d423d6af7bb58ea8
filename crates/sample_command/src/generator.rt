ghost use Rattle.std.specs.Prelude.{◌≡◌, ◌≤◌, ◌+◌, ◌%◌, length, OnOk};
ghost use Rattle.sample_command.specs.Generator.{draw, letter_count, letters, next_state, record_from, state_after, state_behind};

use record_io::Bytes;
use std::alloc::AllocError;

/// The most letters of a record.
const MOST_LETTERS: usize = 255;

/// How many letters a step draws.
const STEP: usize = 8;

/// What leads from a state to those that its next draws leave, the first to the eighth: times the factor, plus the term. So no
/// draw of a step waits for the one before it.
const JUMPS: [(u64, u64); STEP] = [
    (6364136223846793005, 1442695040888963407),
    (7520897724310334953, 1876011003808476466),
    (793875393913628917, 11166244414315200793),
    (18108194425815612945, 7401132627792533940),
    (7596774164172298237, 7076646890315895283),
    (17333513496047876729, 10346034117385188870),
    (8758975453663301189, 1459328389850446429),
    (13086856194709077281, 6566661184467396264),
];

/// Numbers below 2^31 that a seed tells, and records of letters that are drawn by them. Own.
#[derive(Debug, Drop)]
pub(crate) struct Generator {
    /// What the last draw left, and the seed before there was one.
    pub state: u64,
}

impl Generator {
    /// Puts the next record in place of what `into` held. After want of memory the record is lost.
    pub fn draw_record(&mut self, into: &mut Bytes) -> Result<(), AllocError>
        ensures drawn { OnOk result (into.new ≡ record_from self.old.state) }
        ensures short { OnOk result (length into.new ≤ 255) }
        ensures left { self.new.state ≡ state_behind self.old.state }
    {
        let mut place = [0; MOST_LETTERS];
        let letters = &mut place[..self.letter_count()];
        self.fill(letters);
        into.clear();
        into.push_all(letters)
    }

    /// How many letters the next record has.
    fn letter_count(&mut self) -> usize
        ensures count { result ≡ letter_count self.old.state }
        ensures short { result ≤ 255 }
        ensures left { self.new.state ≡ next_state self.old.state }
    {
        (self.draw() % 256) as usize
    }

    /// Fills a place with letters.
    fn fill(&mut self, place: &mut [u8])
        ensures filled { place.new ≡ letters (length place.old) self.old.state }
        ensures left { self.new.state ≡ state_after (length place.old) self.old.state }
    {
        let steps = place.len() / STEP;
        let mut state = self.state;
        for step in 0..steps {
            let before = state;
            for letter in 0..STEP {
                let (factor, term) = JUMPS[letter];
                state = before.wrapping_mul(factor).wrapping_add(term);
                place[STEP * step + letter] = letter_of(state >> 33);
            }
        }
        self.state = state;
        for rest in STEP * steps..place.len() {
            place[rest] = letter_of(self.draw());
        }
    }

    /// The next number.
    fn draw(&mut self) -> u64
        ensures number { result ≡ draw self.old.state }
        ensures left { self.new.state ≡ next_state self.old.state }
    {
        let (factor, term) = JUMPS[0];
        self.state = self.state.wrapping_mul(factor).wrapping_add(term);
        self.state >> 33
    }
}

/// The letter of a number, from `a` to `z`.
fn letter_of(number: u64) -> u8
    ensures { result ≡ 97 + number % 26 }
{
    b'a' + (number % 26) as u8
}
