// The sizes after a command, by what it told: its value, or its refusal.
ghost use Rattle.std.specs.Prelude.{◌≡◌, ◌≤◌};
ghost use Rattle.paper.specs.Width.{dim_limit};
ghost use Rattle.paper.specs.Refusal.{answer_of};
ghost use Rattle.sizes.specs.Sizes.{stepped, replanned, relifted};

use paper::Answer;
use paper::refusal::Refusal;
use sizes::{Sizes, Stepped};

// Those after a command that leaves them.
pub fn kept(told: Result<u16, Refusal>, sizes: Sizes) -> Stepped
    ensures { result ≡ stepped (answer_of told) sizes }
{
    sizes::kept(Answer::from(told), sizes)
}

// Those after one that gives the plan dimension m and n darts, where it is accepted.
pub fn replanned(told: Result<u16, Refusal>, sizes: Sizes, m: usize, n: usize) -> Stepped
    ensures { result ≡ replanned (answer_of told) sizes m n }
{
    sizes::replanned(Answer::from(told), sizes, m, n)
}

// Those after LIFT.
pub fn relifted(told: Result<u16, Refusal>, sizes: Sizes) -> Stepped
    requires { sizes.m ≤ dim_limit }
    ensures { result ≡ relifted (answer_of told) sizes }
{
    sizes::relifted(Answer::from(told), sizes)
}
