//! One build: reads the build files, decides which commands are needed, and runs them.
#![tactic(auto)]

mod asked;
mod explained;
mod explaining;
mod held;
mod one_build;
mod own_files;
mod reading;

pub use asked::{Asked, Limits, own_folder};
pub use explained::{Acts, Explained, Explanation};
pub use explaining::{explain, explain_read};
pub use held::Held;
pub use one_build::{build, build_graph_holding, build_graph_read, build_read, link};
pub use reading::{Reading, read};
pub use work::{Missing, Options, Refusal, Report, Unfit};
