//! What the program writes, and how it ends, if no case of a file can show it.

mod failing;
mod limits;
mod threading;
