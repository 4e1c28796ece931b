//! What is said where workers did not finish.
ghost use Rattle.std.specs.Prelude.{◌≡◌};
ghost use Rattle.polylab_engine.specs.Outcome.{pool_refusal};

use lab_pool::PoolFault;

/// The line that tells why the workers did not finish.
pub fn pool_line(fault: PoolFault) -> &'static [u8]
    ensures { result.now ≡ pool_refusal fault }
{
    match fault {
        PoolFault::BadWorkerCount => b"refused pool 1 BadWorkerCount\n",
        PoolFault::OutOfMemory => b"refused pool 2 OutOfMemory\n",
        PoolFault::Held => b"refused pool 3 Held\n",
        PoolFault::NoThread => b"refused pool 4 NoThread\n",
        PoolFault::Mismatch => b"refused pool 5 Mismatch\n",
    }
}
