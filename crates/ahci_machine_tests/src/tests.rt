//! What no clause says: worked rows, and that guests are served.

mod driver;
mod fan;
mod one;
mod rig;
