#![tactic(auto)]

// The branch in cells: root, contradiction, extension and closing, each as the calculus has it.
ghost use Rattle.std.specs.Prelude.{◌≤◌, length};
ghost use Rattle.instance.specs.Memory.{cells_size, log_size};

mod contradiction;
mod extension;
mod questions;
mod start;

use journal::Journal;
pub use start::root;

// Where the cells of each kind begin; the weight of a literal lies at its code.
// The cells are lent memory of `u64`, one word for each, so a death, a mark and a shut clause are each a 1 there.
const BOOKED: usize = 0;

const DEAD: usize = 1;

const MARKS: usize = 1000;

const SHUTS: usize = 2002;

// The branch at work, and how it came about.
#[derive(Drop)]
pub struct Branch<'a> {
    pub journal: Journal<'a>,
    ghost enough_cells: { cells_size ≤ length journal.cells.now },
    ghost enough_log: { log_size ≤ length journal.log.now },
}
