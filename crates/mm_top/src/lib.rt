//! All that the program does: the commands, and the one call that does what words ask, [`mmachine`].
//!
//! The contract of [`mmachine`] is in src/top.rt, and the headline is among its clauses. The table of commands is in
//! `mm_cli`, the kinds of files are in `mm_load`, and specs/Commands.antt says what each command comes to.
//!
//! | what | modules |
//! |---|---|
//! | the call: from words to a row, from a row to its command, and the answer | `top` |
//! | commands that run an image | `run`, `trace`, `log`, `solo`, `debug`, `save`, `resume` (`continue`) |
//! | commands that run several images, or a generated one | `nets` (`net`), `soak` |
//! | commands that look at an image | `grants`, `why`, `holders`, `explore`, `keeps` |
//! | commands that make an image of an image | `extract`, `sweep`, `migrate` |
//! | commands that make an image, an object or a text | `generate` (`gen`), `asm`, `link`, `dis` |
//! | what runs share: the machine, the plan, the cycles, a text of each | `boot`, `plan`, `cycles`, `detail` |
//! | what else commands share: images that are written, why a command stops | `images`, `stops` |
//! | the items that name an image's slots and their ports | `members` |
//! | what the program's memory adds to a report | `memories` |
//! | what holds of commands that are used one after the other | `laws` |
#![tactic(auto)]

mod asm;
mod boot;
mod cycles;
mod debug;
mod detail;
mod dis;
mod explore;
mod extract;
mod generate;
mod grants;
mod holders;
mod images;
mod keeps;
mod laws;
mod link;
mod log;
mod members;
mod memories;
mod migrate;
mod nets;
mod plan;
mod resume;
mod run;
mod save;
mod soak;
mod solo;
mod stops;
mod sweep;
mod top;
mod trace;
mod why;

pub use laws::{saves_go_on, texts_are_run};
pub use memories::counts_stand_behind;
pub use top::mmachine;
