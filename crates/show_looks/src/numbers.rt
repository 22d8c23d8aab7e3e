//! Numbers of a show that fits.
ghost use Rattle.std.specs.Prelude.{◌≡◌, ◌≤◌, ◌+◌, ℕ, length, map, IfOk};
ghost use Rattle.std.specs.List.{All, sum};
ghost use Rattle.whole_numbers.specs.Limits.{most_drones};
ghost use Rattle.crtp_packets.specs.Chunks.{chunk_count_of};
ghost use Rattle.traj_codec.specs.declared.traj.Traj.{Traj};
ghost use Rattle.show_plan.specs.Fitting.{IsSendable, size};

use crtp_packets::{MEMORY_BYTES, chunk_count};
use std::alloc::{AllocError, Global};
use traj_codec::{Traj, size_of};

/// The number of bytes of each trajectory.
pub fn sizes(alloc: Global, trajs: &[Traj]) -> Result<Vec<u32>, AllocError>
    requires sendable { All IsSendable trajs.now }
    requires in_memory { All (λ (t : Traj). size t ≤ MEMORY_BYTES) trajs.now }
    ensures { IfOk result (λ sizes. sizes.items ≡ map size trajs.now) }
{
    let mut sizes = Vec::new(alloc);
    for t in trajs {
        sizes.push(size_of(t) as u32)?;
    }
    Ok(sizes)
}

/// The number of packets for each of these numbers of bytes: their writes and a define.
pub fn packets(alloc: Global, sizes: &[u32]) -> Result<Vec<u32>, AllocError>
    requires { All (λ n. n ≤ MEMORY_BYTES) sizes.now }
    ensures { IfOk result (λ packets. packets.items ≡ map (λ n. chunk_count_of n + 1) sizes.now) }
{
    let mut packets = Vec::new(alloc);
    for size in sizes {
        packets.push(chunk_count(*size as usize) as u32 + 1)?;
    }
    Ok(packets)
}

/// The sum of these numbers.
pub fn total(numbers: &[u32]) -> u32
    requires few { length numbers.now ≤ most_drones }
    requires small { All (λ (n : ℕ). n ≤ MEMORY_BYTES) numbers.now }
    ensures { result ≡ sum numbers.now }
{
    let mut total = 0;
    for number in numbers {
        total += *number;
    }
    total
}
