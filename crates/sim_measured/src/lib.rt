//! A site in memory that tells how long its files are: what a build by what was seen asks of a site beside the calls of every site. To contracts it
//! tells its files.
#![tactic(auto)]

mod measuring;

pub use measuring::Measuring;
