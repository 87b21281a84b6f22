// Counts of faults and of calls, which stay at the end of their type.
ghost use Rattle.std.specs.Prelude.{◌≡◌};
ghost use Rattle.orca_io.specs.Count.{next};

pub fn next_count(count: u64) -> u64
    ensures { result ≡ next count }
{
    if count < u64::MAX { count + 1 } else { count }
}
