ghost use Rattle.std.specs.Prelude.{◌≡◌, ◌≤◌, length};
ghost use Rattle.instance.specs.Memory.{cleared};

// Leaves lent memory as every question must: zero up to its constant and as before beyond it.
#[tactic(auto, unfolding(crate::specs::Memory::cleared, crate::specs::Memory::zeros))]
pub fn clear(part: &mut [u64], size: usize)
    requires { size ≤ length part.old }
    ensures { part.new ≡ cleared size part.old }
{
    part[..size].fill(0);
}
