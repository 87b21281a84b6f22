//! A queue of the numbers of items, from which each number is taken once.
ghost use Rattle.std.specs.Prelude.{◌≡◌, ◌<◌, ◌≤◌, [], IfOk, IfSome, IfNone};
ghost use Rattle.batch_pool.specs.Views.{view_with, after_push, after_pop, after_split, new_view, after_join};
ghost use Rattle.batch_pool.specs.Rule.{HasEachOnce};
ghost use Rattle.batch_pool.specs.Queues.{view_of, IsPassOf, room_of};

use crate::pass_view::PassView;
use crate::rule::{ItemRule, JoinPass, Pop, Push, SplitPass};
use crossbeam_queue::{Pass, RuledArrayQueue};
use std::alloc::{AllocError, Global};
use std::sync::Wait;

/// The numbers of items that nobody has taken.
#[derive(Drop)]
pub struct ItemQueue {
    queue: RuledArrayQueue<u32, PassView, ItemRule>,
}

/// What a thread needs to take numbers. It has no bytes.
#[derive(Drop)]
pub struct ItemPass {
    pass: Pass<u32, PassView>,
}

impl ItemQueue {
    /// A queue with the numbers below n, and the pass that has all parts.
    pub fn filled<R: Wait>(
        rt: &R,
        alloc: Global,
        n: u32,
    ) -> Result<(ItemQueue, ItemPass), AllocError>
        requires { 0 < n }
        ensures its { IfOk result (λ made. IsPassOf made.0 made.1) }
        ensures view { IfOk result (λ made. view_of made.1 ≡ view_with 64 n []) }
    {
        let (queue, pass) = RuledArrayQueue::<u32, PassView, ItemRule>::ruled(alloc, n as usize)?;
        let queue = ItemQueue { queue };
        let mut pass = ItemPass { pass };
        for number in 0..n {
            queue.push(rt, &mut pass, number);
        }
        Ok((queue, pass))
    }

    // Adds the number that comes next.
    fn push<R: Wait>(&self, rt: &R, pass: &mut ItemPass, number: u32)
        requires its { IsPassOf self.now pass.old }
        requires all_parts { (view_of pass.old).parts ≡ 64 }
        requires none_taken { (view_of pass.old).taken ≡ [] }
        requires next { number ≡ (view_of pass.old).pushed }
        requires room { number < room_of self.now }
        ensures its { IsPassOf self.now pass.new }
        ensures view { view_of pass.new ≡ after_push (view_of pass.old) }
    {
        match self.queue.push_as::<Push, R>(rt, &mut pass.pass, number) {
            Ok(()) => {}
            Err(_number) => unreachable!(),
        }
    }

    /// Takes a number. Where it finds none, a pass with all parts has taken each number that was pushed.
    pub fn pop<R: Wait>(&self, rt: &R, pass: &mut ItemPass) -> Option<u32>
        requires its { IsPassOf self.now pass.old }
        requires some_part { 1 ≤ (view_of pass.old).parts }
        ensures its { IsPassOf self.now pass.new }
        ensures some { IfSome result (λ number. view_of pass.new ≡ after_pop (view_of pass.old) number) }
        ensures none { IfNone result (view_of pass.new ≡ view_of pass.old) }
        ensures all { IfNone result ((view_of pass.old).parts ≡ 64 →
            HasEachOnce (view_of pass.old).pushed (view_of pass.old).taken) }
    {
        self.queue.pop_as::<Pop, R>(rt, &mut pass.pass)
    }

    /// A new pass, which gets one part and nothing else.
    pub fn split(&self, pass: &mut ItemPass) -> ItemPass
        requires its { IsPassOf self.now pass.old }
        requires parts { 2 ≤ (view_of pass.old).parts }
        ensures this { IsPassOf self.now pass.new }
        ensures other { IsPassOf self.now result }
        ensures left { view_of pass.new ≡ after_split (view_of pass.old) }
        ensures right { view_of result ≡ new_view }
    {
        ItemPass {
            pass: self.queue.another::<SplitPass>(&mut pass.pass),
        }
    }

    /// Takes in another pass.
    pub fn join(&self, pass: &mut ItemPass, other: ItemPass)
        requires its { IsPassOf self.now pass.old }
        requires other { IsPassOf self.now other }
        ensures its { IsPassOf self.now pass.new }
        ensures view { view_of pass.new ≡ after_join (view_of pass.old) (view_of other) }
    {
        let ItemPass { pass: other } = other;
        self.queue.absorb::<JoinPass>(&mut pass.pass, other);
    }
}
