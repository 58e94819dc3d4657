//! Nights by public calls: what each Comp reads, what is installed, the tables in the end, and what is refused.

mod calls;
mod carried;
mod closures;
mod counted;
mod drawn;
mod groups;
mod indexed;
mod installed;
mod limits;
mod opened;
mod product;
mod refused;
mod run;
mod steps;
mod waves;
mod wide;

use test_given::{catalogs, tables};
