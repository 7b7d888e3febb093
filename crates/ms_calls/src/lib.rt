//! What a program in another language asks of `msat`, of a signature and of a key (SEC 1, SEC 2), as calls over plain bytes and
//! numbers.
#![tactic(auto)]

pub use answering::{NO_MEMORY, UNREADABLE, answer};
pub use auditing::audit;
pub use copying::{write_lengths, write_over};
pub use facts::Facts;
pub use holding::satisfy;
pub use judging::signature;
pub use ms_lines::ByteSink;
pub use outcome::{PlacedStep, RunOutcome};
pub use planning::plan;
pub use pointing::point;
pub use policies::policy;
pub use readings::decode;
pub use reason::Reason;
pub use running::run;
pub use satisfying::{least_weight, witness};
pub use texts::{check, script};
pub use versions::version;
pub use words::{NoWords, read_words};

mod answering;
mod auditing;
mod copying;
mod facts;
mod holding;
mod items;
mod judging;
mod outcome;
mod planning;
mod pointing;
mod policies;
mod readings;
mod reason;
mod running;
mod satisfying;
mod stopping;
mod texts;
mod versions;
mod words;
