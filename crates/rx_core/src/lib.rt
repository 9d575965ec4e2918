//! What every layer speaks of: spans, kinds, types, places, lists, and the source and sinks of a program.
#![tactic(auto)]

mod boxed;
mod bytes_source;
mod calls;
mod held;
mod list;
mod never;
mod read;
mod sink;
mod source;
mod std_streams;
mod text;
mod types;
mod vec_sink;
mod words;
mod write;

pub use boxed::Boxed;
pub use bytes_source::BytesSource;
pub use calls::Calls;
pub use held::{LetGo, keep, pushed};
pub use list::List;
pub use never::{NeverSink, NeverSource};
pub use read::{ReadFail, read_all};
pub use sink::Sink;
pub use source::{Failed, Source};
pub use std_streams::{StdSink, StdSource};
pub use text::{Name, Text};
pub use types::{Bound, Edit, Edits, Kind, Place, Position, Span, Step, Ty, Which};
pub use vec_sink::VecSink;
pub use words::{is_among, is_among_names, is_among_texts, is_same, is_same_name, is_same_text};
pub use write::{WriteFail, write_all_of};
