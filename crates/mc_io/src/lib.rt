//! What a run reads from and writes to.
#![tactic(auto)]

mod failing_calls;
mod input_buffer;
mod inputs;
mod line_finding;
mod line_text;
mod lines;
mod memory_sink;
mod memory_source;
mod pieces;
mod read_stop;
mod reading;
mod room;
mod safe_sink;
mod safe_source;
mod taking;
mod writing;

pub use input_buffer::InputBuffer;
pub use line_finding::first_feed;
pub use line_text::{is_long, text_len};
pub use lines::{LineStep, Lines, lines_law};
pub use memory_sink::MemorySink;
pub use memory_source::MemorySource;
pub use read_stop::ReadStop;
pub use reading::Source;
pub use safe_sink::SafeSink;
pub use safe_source::SafeSource;
pub use writing::{Sink, put_all};

#[cfg(test)]
mod tests;
