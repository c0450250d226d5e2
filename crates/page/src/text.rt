// Times and nanoseconds as the page prints them.
use std::fmt;
use std::fmt::InlineText;

// A time of the day in nanoseconds, as hours, minutes and seconds.
#[derive(Clone, Copy)]
pub struct Moment(pub u64);

impl fmt::Display for Moment {
    fn fmt<W: fmt::Write>(&self, f: &mut fmt::Formatter<W>) -> fmt::Result {
        let seconds = self.0 / 1_000_000_000;
        write!(
            f,
            "{:02}:{:02}:{:02}",
            seconds / 3600,
            seconds / 60 % 60,
            seconds % 60
        )
    }
}

// Nanoseconds times 2^16, printed as nanoseconds and picoseconds; a dash where they are not known. A format's width is that of the whole
// nanoseconds, so that the points of a column stand below each other.
#[derive(Clone, Copy)]
pub struct Nanoseconds(pub Option<i64>);

impl fmt::Display for Nanoseconds {
    fn fmt<W: fmt::Write>(&self, f: &mut fmt::Formatter<W>) -> fmt::Result {
        let Some(scaled) = self.0 else {
            f.pad_integral(true, "", "-")?;
            return f.write_str("   ");
        };
        let size = scaled.unsigned_abs();
        let whole = InlineText::<20>::of(size / 65536);
        f.pad_integral(scaled >= 0, "", whole.as_str())?;
        write!(f, ".{:03}", size % 65536 * 1000 / 65536)
    }
}
