//! Plans of runs beside all walks up to a length.

mod agreement;
mod deeds;
mod points;
mod runs;
