//! What a program reads and writes whole, and how it ends: files, folders and lists that words name, bytes of a reader,
//! text to a writer, why one isn't read, what the system lets a run use, the exit statuses.
#![tactic(auto)]

mod bytes;
mod input;
mod limits;
mod lines;
mod missing;
mod paths;
mod source;
mod status;
mod unread;
mod whole;

pub use bytes::{read_bytes, write_text};
pub use input::{INPUT_LIMIT, read_file, read_input};
pub use limits::{has_stack, room_of, tell, write_within};
pub use lines::{lines_of, says};
pub use missing::Missing;
pub use paths::paths_in;
pub use source::{Source, sources};
pub use status::{Output, Status};
pub use unread::Unread;
pub use whole::write_whole;
