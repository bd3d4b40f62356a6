//! Moments as text.

use rd_base::{Moment, Starved};

/// Writes a moment in seconds, to the millisecond.
pub(crate) fn write_seconds(page: &mut String, moment: Moment) -> Result<(), Starved> {
    let seconds = moment.0 / 1000;
    let rest = moment.0 % 1000;
    Ok(write!(page, "{seconds}.{rest:03} s")?)
}

/// Writes the moment at the beginning of a line.
pub(crate) fn write_moment(page: &mut String, moment: Moment) -> Result<(), Starved> {
    write_seconds(page, moment)?;
    Ok(page.push_str("  ")?)
}
