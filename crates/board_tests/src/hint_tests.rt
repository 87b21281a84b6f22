ghost use Rattle.std.specs.Prelude.{◌≡◌, ℕ, ◌<◌, ◌≤◌};

use goal_board::Hints;
use place_hints::PlaceHints;
use std::alloc::{AllocError, Global};
use std::process::Abort;
use std::test::Fail;
use std::thread;

// Tells of all places below a number.
fn hint_below(hints: &mut PlaceHints, end: u32)
    requires { end ≤ hints.old }
    ensures { hints.new ≡ hints.old }
{
    for place in 0..end {
        hints.hint(place);
    }
}

// How many places are left, and their sum.
fn take_all(hints: &mut PlaceHints) -> (u64, u64) {
    let (mut count, mut sum) = (0u64, 0u64);
    for _time in 0..10_000 {
        let Some(place) = hints.take() else {
            break;
        };
        count = count.wrapping_add(1);
        sum = sum.wrapping_add(place as u64);
    }
    (count, sum)
}

// How many places were stolen in so many tries, and their sum.
fn steal_some(hints: &mut PlaceHints, tries: u32) -> (u64, u64) {
    let (mut count, mut sum) = (0u64, 0u64);
    for _time in 0..tries {
        if let Some(place) = hints.steal(0) {
            count = count.wrapping_add(1);
            sum = sum.wrapping_add(place as u64);
        }
    }
    (count, sum)
}

fn take_and_steal(rt: &impl Abort, first: &mut PlaceHints, second: &mut PlaceHints)
    requires { 4 ≤ first.old }
{
    hint_below(first, 4);
    assert_eq!(rt; first.take(), Some(3));
    assert_eq!(rt; (second.steal(0), second.steal(0)), (Some(0), Some(1)));
    assert_eq!(rt; first.take(), Some(2));
    assert!(rt; first.take().is_none() && second.steal(0).is_none());
}

#[test]
fn the_newest_is_taken_and_the_oldest_stolen(rt: HostRuntime) -> Result<(), Fail> {
    let mut first = PlaceHints::new(rt.alloc(), 100)?;
    assert!(rt; first.take().is_none());
    let mut second = first.split(rt.alloc())?;
    take_and_steal(&rt, &mut first, &mut second);
    Ok(())
}

// Others know the hints of whoever was split from them, and of whom they were split from.
fn steal_in_turn(
    rt: &impl Abort,
    first: &mut PlaceHints,
    second: &mut PlaceHints,
    third: &mut PlaceHints,
)
    requires { (2 ≤ second.old) × (1 ≤ third.old) }
{
    let others = (first.others(), second.others(), third.others());
    assert_eq!(rt; others, (2, 1, 2));
    hint_below(second, 2);
    assert_eq!(rt; (first.steal(0), third.steal(1)), (Some(0), Some(1)));
    hint_below(third, 1);
    assert_eq!(rt; (first.steal(1), first.steal(2)), (Some(0), None));
}

// The same with a third one.
fn split_again(
    rt: &impl Abort,
    alloc: Global,
    first: &mut PlaceHints,
    second: &mut PlaceHints,
) -> Result<(), AllocError>
    requires { (100 ≤ first.old) × (100 ≤ second.old) }
{
    let mut third = first.split(alloc)?;
    steal_in_turn(rt, first, second, &mut third);
    Ok(())
}

#[test]
fn who_can_steal_from_whom(rt: HostRuntime) -> Result<(), Fail> {
    let mut first = PlaceHints::new(rt.alloc(), 100)?;
    let mut second = first.split(rt.alloc())?;
    split_again(&rt, rt.alloc(), &mut first, &mut second)?;
    Ok(())
}

// Whoever is split last, after so many splits, each from the worker before, which was told of a place of its own.
fn last_of(alloc: Global, splits: u32) -> Result<PlaceHints, AllocError>
    requires { splits ≤ 100 }
{
    let mut last = PlaceHints::new(alloc, 100)?;
    for place in 0..splits {
        last.hint(place);
        let next = last.split(alloc)?;
        last = next;
    }
    Ok(last)
}

// From how many others it can steal a place, and the sum of these.
fn steal_from_each(hints: &mut PlaceHints) -> (u64, u64) {
    let (mut count, mut sum) = (0u64, 0u64);
    for other in 0..hints.others() {
        if let Some(place) = hints.steal(other) {
            count = count.wrapping_add(1);
            sum = sum.wrapping_add(place as u64);
        }
    }
    (count, sum)
}

#[test]
fn the_last_of_six_can_steal_from_all_before(rt: HostRuntime) -> Result<(), Fail> {
    let mut last = last_of(rt.alloc(), 5)?;
    assert_eq!(rt; steal_from_each(&mut last), (5, 10));
    Ok(())
}

#[test]
fn each_hint_comes_out_once(rt: HostRuntime) -> Result<(), Fail> {
    let mut owner = PlaceHints::new(rt.alloc(), 1000)?;
    let mut thief = owner.split(rt.alloc())?;
    let (taken, stolen) = thread::join(
        &rt,
        move || {
            hint_below(&mut owner, 1000);
            take_all(&mut owner)
        },
        move || steal_some(&mut thief, 2000),
    );
    assert_eq!(rt; taken.0.wrapping_add(stolen.0), 1000);
    assert_eq!(rt; taken.1.wrapping_add(stolen.1), 499_500);
    Ok(())
}
