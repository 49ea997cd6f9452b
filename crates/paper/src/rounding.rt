// Rounding.
ghost use Rattle.std.specs.Prelude.{◌≡◌};
ghost use Rattle.paper.specs.Rounding.{nearest};

// a over b to the nearest whole, halves up; 0 where b is 0.
pub fn nearest(a: u64, b: u64) -> u64
    ensures { result ≡ nearest a b }
{
    if b == 0 {
        return 0;
    }
    let whole = a / b;
    let rest = a % b;
    // The rest against what it lacks to b: twice the rest could wrap.
    if rest < b - rest {
        return whole;
    }
    whole + 1
}
