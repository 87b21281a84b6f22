//! Places in a list of two parts, of which one or both may have none.
#![tactic(auto)]

ghost use Rattle.std.specs.Prelude.{◌≡◌, ◌+◌, ◌<◌, ◌^◌, IfSome};
ghost use Rattle.plan_check.specs.Passes.{own_place_of, sooner_of, later_of};

/// The place of one element that is right or wrong, where it is wrong.
pub fn own_place(right: bool) -> Option<u32>
    ensures { result ≡ own_place_of right }
{
    if right { None } else { Some(0) }
}

/// A place in a part of so many elements, or else one in the part behind it.
pub fn sooner(left: Option<u32>, count: u32, right: Option<u32>) -> Option<u32>
    requires { IfSome right (λ place. count + place < 2 ^ 32) }
    ensures { result ≡ sooner_of left count right }
{
    match left {
        Some(place) => Some(place),
        None => right.map(|place| count + place),
    }
}

/// A place in the part behind a part of so many elements, or else one in this part.
pub fn later(left: Option<u32>, count: u32, right: Option<u32>) -> Option<u32>
    requires { IfSome right (λ place. count + place < 2 ^ 32) }
    ensures { result ≡ later_of left count right }
{
    match right {
        Some(place) => Some(count + place),
        None => left,
    }
}
