// Reads the lines of a script as commands.
//
// A line is cut at blanks. An empty line, or one whose first part begins with `#`, is no command. Every other line is one
// command with its arguments, or an error that says what was wrong and what would be right.
#![tactic(auto)]

mod arguments;
mod command;
mod error;
mod line;

pub use command::{Command, FamilyName};
pub use error::{Form, Unread};
pub use line::read;
