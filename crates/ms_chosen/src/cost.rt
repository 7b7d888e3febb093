//! Weights of stacks: of one on top of another, and of the lighter one of two.
ghost use Rattle.std.specs.Prelude.{◌≡◌};
ghost use Rattle.ms_chosen.specs.Scaffolding.Costs.{sum_of, lesser};
ghost use Rattle.ms_choice.specs.Numbers.{IsLightOption};
ghost use Rattle.ms_chosen.specs.Scaffolding.Pushed.{is_former as the_is_former};

/// The weight of one stack on top of another.
pub fn both(below: Option<u64>, above: Option<u64>) -> Option<u64>
    requires below { IsLightOption below }
    requires above { IsLightOption above }
    ensures { result ≡ sum_of below above }
{
    match (below, above) {
        (Some(below), Some(above)) => Some(below + above),
        _ => None,
    }
}

/// The weight of the lighter one of two stacks.
pub fn least(former: Option<u64>, latter: Option<u64>) -> Option<u64>
    ensures { result ≡ lesser former latter }
{
    match (former, latter) {
        (Some(former), Some(latter)) => Some(former.min(latter)),
        (Some(former), None) => Some(former),
        (None, latter) => latter,
    }
}

/// Whether the former of two options is taken: there is one, and the latter doesn't weigh less.
pub fn is_former(former: Option<u64>, latter: Option<u64>) -> bool
    ensures { result ≡ the_is_former former latter }
{
    match (former, latter) {
        (Some(former), Some(latter)) => former <= latter,
        (former, _) => former.is_some(),
    }
}
