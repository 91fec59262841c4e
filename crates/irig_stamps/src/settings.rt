//! How lines are read and stamped.

/// How a time is written.
#[derive(Clone, Copy)]
pub enum Form {
    /// The day by its number in the year: `[YYYY-]DDDThh:mm:ss.ffffff`.
    Ordinal,
    /// The day by its month: `YYYY-MM-DDThh:mm:ss.ffffff`.
    Calendar,
    /// The seconds since midnight, with six decimals.
    Seconds,
}

/// How lines are read and stamped.
#[derive(Clone, Copy)]
pub struct Settings<'a> {
    /// 10^`places` picoseconds are a unit of the recorder's time.
    pub places: usize,
    /// The recorder's time at the start of the track, without its sign, in picoseconds from its
    /// zero.
    pub offset: u128,
    /// Whether the track starts before the recorder's zero: `offset` is then below it.
    pub early: bool,
    /// The column of the recorder's time, from 0.
    pub column: usize,
    /// The name of that column in the last line of the header, if its number is not known.
    pub named: Option<&'a [u8]>,
    /// The byte that parts columns; white space if it is missing.
    pub comma: Option<u8>,
    /// How many lines from the first on are the header.
    pub header: u64,
    /// The name of the column of times, for the last line of the header.
    pub name: &'a [u8],
    /// The century of years of two digits: 20 for 2000 to 2099.
    pub century: u32,
    /// The year of the first frame that is believed, if frames carry no year.
    pub year: Option<u32>,
    /// The day of that frame in its year, from 1.
    pub first_day: u32,
    /// How long the track is, in microseconds.
    pub micros: u64,
    /// Whether each fine frame is believed.
    pub alone: bool,
    /// Whether a word says why a line has no time.
    pub why: bool,
    /// Whether a column says how far each time can be off.
    pub bound: bool,
    /// By how many microseconds a time can be off that is printed.
    pub within: Option<u64>,
    /// How a time is written.
    pub form: Form,
}
