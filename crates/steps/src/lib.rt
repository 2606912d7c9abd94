// The steps of a machine on the words of the area: a part placed, entered, and left when those below it are finished.
#![tactic(auto)]

mod enters;
mod lays;
mod leaves;
mod marks;

pub use enters::{Turn, ended, enter_leaf, enter_not, enter_sum, enter_table, two_ready};
pub use lays::{lay, lay_leaf};
pub use leaves::{leave_both, leave_not, take_next};
pub use marks::{MarkedBook, end_at, mark};
