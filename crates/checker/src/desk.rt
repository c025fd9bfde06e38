ghost use Rattle.std.specs.Prelude.{◌≤◌, length};
ghost use Rattle.instance.specs.Memory.{cells_size, log_size, frames_size};

// The lent memory that a walk works in.
#[derive(Drop)]
pub struct Desk<'a> {
    pub cells: &'a mut [u64],
    pub log: &'a mut [u64],
    pub frames: &'a mut [u64],
    ghost enough_cells: { cells_size ≤ length cells.now },
    ghost enough_log: { log_size ≤ length log.now },
    ghost enough_frames: { frames_size ≤ length frames.now },
}
