// The sizes of both maps, and those after a command.
#![tactic(auto)]

ghost use Rattle.std.specs.Prelude.{◌≡◌, ◌≤◌};
ghost use Rattle.paper.specs.Width.{dim_limit};
ghost use Rattle.sizes.specs.Sizes.{stepped, replanned, relifted};

use paper::Answer;

// The dimension and the count of darts of the plan, and those of the lifted map.
#[derive(Clone, Copy)]
pub struct Sizes {
    pub m: usize,
    pub n: usize,
    pub lm: usize,
    pub ln: usize,
}

// A reply, and the sizes after it.
#[derive(Clone, Copy)]
pub struct Stepped {
    pub answer: Answer,
    pub sizes: Sizes,
}

// The sizes after a command that leaves them.
pub fn kept(answer: Answer, sizes: Sizes) -> Stepped
    ensures { result ≡ stepped answer sizes }
{
    Stepped { answer, sizes }
}

// The sizes after a command that gives the plan dimension m and n darts, where it is accepted.
pub fn replanned(answer: Answer, sizes: Sizes, m: usize, n: usize) -> Stepped
    ensures { result ≡ replanned answer sizes m n }
{
    if answer.number != 0 {
        return kept(answer, sizes);
    }
    kept(answer, Sizes { m, n, ..sizes })
}

// The sizes after LIFT.
pub fn relifted(answer: Answer, sizes: Sizes) -> Stepped
    requires { sizes.m ≤ dim_limit }
    ensures { result ≡ relifted answer sizes }
{
    if answer.number != 0 {
        return kept(answer, sizes);
    }
    let lm = sizes.m + 1;
    let ln = usize::from(answer.value);
    kept(answer, Sizes { lm, ln, ..sizes })
}
