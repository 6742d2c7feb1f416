//! What a stream is played with.

use rh_pace::Pace;

/// The greatest object of a stream: 8 fields, a header and a forward word.
pub const BIGGEST: u32 = 10;

/// What a stream is played with.
#[derive(Clone, Copy)]
pub struct Setting {
    /// How many times the greatest live set the space has.
    pub headroom: u32,
    /// How often the stream is played, of which the last time counts.
    pub passes: u32,
    /// The units of collector work for each allocated word.
    pub ratio: u32,
    /// At how many thousandths of the words free a cycle begins; 0 for the filling pace.
    pub mark: u32,
}

impl Setting {
    /// The pace in a space of so many words; nothing where none keeps up.
    pub fn pace(self, words: u32) -> Option<Pace> {
        let mut pace = Pace::filling(words, BIGGEST, self.ratio).ok()?;
        if self.mark != 0 {
            pace.mark = u32::try_from(u64::from(words) * u64::from(self.mark) / 1000).ok()?;
        }
        Some(pace)
    }
}
