// How many elements each lent workspace must have; docs/WORKSPACES.md says what each holds and why that is enough.
pub const STORE: usize = 7000;

pub const CELLS: usize = 3002;

pub const LOG: usize = 10002;

pub const FRAMES: usize = 3000;

pub const LINKS: usize = 1001;

pub const FOUND: usize = 500;
