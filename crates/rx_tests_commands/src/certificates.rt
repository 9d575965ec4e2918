//! The commands `certify` and `verify`: certificates byte for byte, texts that get none, certificates that are changed, and bytes that are
//! none.

mod changed;
mod turned;
mod worked;
mod written;
