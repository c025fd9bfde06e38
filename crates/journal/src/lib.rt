#![tactic(auto)]

// Cells with an undo log: every store keeps what it stores over, so that the cells can go back to any height of the log.
ghost use Rattle.std.specs.Prelude.{◌≡◌, ◌+◌, ◌*◌, ◌<◌, ◌≤◌, length};
ghost use Rattle.journal.specs.Undo.{Places, Put, rewound};

// The cells, the log, and the log's height: how many entries it has. Both lie in lent memory, since there is no heap. What a call
// does is a relation of the state before and the one after, which no invariant can say; the laws of these relations speak of the
// lists.
#[derive(Drop)]
pub struct Journal<'a> {
    pub cells: &'a mut [u64],
    pub log: &'a mut [u64],
    pub top: usize,
}

impl<'a> Journal<'a> {
    ghost use Rattle.journal.specs.Lent.{Remains};

    // Stores a value, with the old one kept in a new entry of the log.
    pub fn put(&mut self, place: usize, value: u64)
        requires { (place < length self.old.cells.now) × (2 * self.old.top + 1 < length self.old.log.now) }
        ensures stored { Put self.old.cells.now self.old.log.now self.old.top place value self.new.cells.now self.new.log.now self.new.top }
        ensures same_memory { Remains self.old self.new }
    {
        self.log[2 * self.top] = place as u64;
        self.log[2 * self.top + 1] = self.cells[place];
        self.cells[place] = value;
        self.top += 1;
    }

    // Takes back the stores above a height of the log.
    pub fn rewind(&mut self, height: usize)
        requires { (height ≤ self.old.top) × (2 * self.old.top ≤ length self.old.log.now) × Places self.old.log.now height self.old.top (length self.old.cells.now) }
        ensures cells { self.new.cells.now ≡ rewound self.old.cells.now self.old.log.now self.old.top height }
        ensures log { self.new.log.now ≡ self.old.log.now }
        ensures top { self.new.top ≡ height }
        ensures same_memory { Remains self.old self.new }
    {
        let top = self.top;
        // The log is lent as the cells are: the prover has no rule yet for a `&` of one field beside a `&mut` of another.
        rewind(&mut *self.cells, &mut *self.log, top, height);
        self.top = height;
    }
}

// Takes back the stores of the entries from `height` to `top`, the last one first. The log is only read, so it may be lent as such.
pub fn rewind(cells: &mut [u64], log: &[u64], top: usize, height: usize)
    requires { (height ≤ top) × (2 * top ≤ length log.now) × Places log.now height top (length cells.old) }
    ensures { cells.new ≡ rewound cells.old log.now top height }
{
    for t in (height..top).rev() {
        let place = log[2 * t] as usize;
        cells[place] = log[2 * t + 1];
    }
}
