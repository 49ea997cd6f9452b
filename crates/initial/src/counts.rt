// The total of a subject's counts.
ghost use Rattle.std.specs.Prelude.{◌≡◌};
ghost use Rattle.firsts.specs.Counts.{total};
ghost use Rattle.initial.specs.Inner.{Countable};

pub(crate) fn total(counts: &[u32]) -> u64
    requires { Countable counts.now }
    ensures { result ≡ total counts.now }
{
    counts.iter().map(|n| u64::from(*n)).sum()
}
