// Masks of results, bit i for result i.
ghost use Rattle.std.specs.Prelude.{◌≡◌, ◌<◌};
ghost use Rattle.paper.specs.Limits.{most_results};
ghost use Rattle.clashes.specs.InnerMasks.{marked};

// The usable results, those that show English, the General ones, and those of each sort that the rules of sets ask for.
#[derive(Clone, Copy, Default)]
pub struct Masks {
    pub usable: u16,
    pub passes: u16,
    pub general: u16,
    pub general_english: u16,
    pub applied_english: u16,
    pub general_maths: u16,
    pub applied_maths: u16,
}

// A mask with result i, if it is of the sort. That i is below 16 each function that shifts by it asks for itself: a struct around i would be taken
// apart at every shift.
pub fn marked(mask: u16, i: usize, belongs: bool) -> u16
    requires { i < most_results }
    ensures { result ≡ marked mask i belongs }
{
    if belongs { mask | (1u16 << i) } else { mask }
}
