//! A stack of numbers on the heap that grows, in segments: objects of 128 fields. Field 0 of a
//! segment refers to the one under it, and the others hold numbers from field 1 on. Which field the
//! last number has is a variable of the program's. When a segment is full a new one stands on it,
//! and when it is popped empty it goes.

ghost use Rattle.std.specs.Prelude.{◌≡◌, ◌≤◌, ◌∷◌, ℤ, [], IfErr, IfOk, List, Ok, OnErr};
ghost use Rattle.rh_mutator.specs.LoadingAll.{number_told};
ghost use Rattle.uses.specs.Room.{IsRoomy, IsToldShort};
ghost use Rattle.uses.specs.Stack.{IsStack, MayRefuse, first_of, rest_of};

use crate::growing_list::{OWNER, call};
use crate::problem::Problem;
use rh_heap::{Command, GrowingError, GrowingHeap, Operand, Refusal, Reply, RootId, Short};
use rh_model::laws::{
    a_new_plain_heap_is_empty, alloc_makes_an_object, copy_copies_a_root, drop_makes_a_root_nil,
    load_reads_a_field, plain_heaps_stay_well_formed, store_writes_a_field,
};
use rh_pace::laws::no_limits::what_changes_roots_alone_meets_no_limit;
use std::alloc::Allocator;

/// The fields of a segment.
const FIELDS: u32 = 128;

/// The last one of them.
const LAST: u32 = FIELDS - 1;

/// The most words of a space.
const AT_MOST: u32 = 100_000;

/// The segment that the last number is in; nil where there is no number.
const SEGMENT: RootId = RootId { owner: 1, slot: 0 };

/// A new segment, until it stands on the others.
const NEW: RootId = RootId { owner: 1, slot: 1 };

/// A stack of numbers.
#[derive(Drop)]
pub struct Stack<A: Allocator + Copy> {
    heap: GrowingHeap<A>,
    /// The field of the last number; the last field where there is no number, so that the next one
    /// begins a segment.
    top: u32,
}

impl<A: Allocator + Copy> Stack<A> {
    /// A stack without numbers.
    pub fn new(alloc: A) -> Result<Stack<A>, GrowingError>
        ensures stack { IfOk result (λ stack. IsStack stack.heap stack.top []) }
        ensures room { IfOk result (λ stack. IsRoomy 130 stack.heap) }
    {
        // Only for the proof: a new plain heap has no objects.
        a_new_plain_heap_is_empty();
        plain_heaps_stay_well_formed();
        let heap = GrowingHeap::new(alloc, AT_MOST)?;
        Ok(Stack { heap, top: LAST })
    }

    /// A number joins on top.
    ///
    /// # Errors
    ///
    /// The stack holds what it held then (`refused`). A limit of the heap is met, by a segment that
    /// is made, if that on top is full, or by a store; or the number isn't -2^61 to 2^61 - 1
    /// (`why`). Where there is no room the heap is short, or the epochs are spent (`room`).
    pub fn push(&mut self, number: i64) -> Result<(), Refusal>
        ensures pushed { (numbers : List ℤ) → IsStack self.old.heap self.old.top numbers
            → IfOk result (λ _. IsStack self.new.heap self.new.top (number ∷ numbers)) }
        ensures refused { (numbers : List ℤ) → IsStack self.old.heap self.old.top numbers
            → OnErr result (IsStack self.new.heap self.new.top numbers) }
        ensures why { (numbers : List ℤ) → IsStack self.old.heap self.old.top numbers
            → IfErr result (MayRefuse self.new.heap self.old.top number) }
        ensures room { IsRoomy 130 self.old.heap
            → IsRoomy 130 self.new.heap × IsToldShort self.new.heap result }
    {
        // Only for the proof: what a store makes of a plain heap.
        plain_heaps_stay_well_formed();
        store_writes_a_field();
        if self.top >= LAST {
            return self.push_on_new_segment(number);
        }
        let (obj, field, operand) = (SEGMENT, self.top + 1, Operand::Int(number));
        call(
            &mut self.heap,
            &Command::Store {
                obj,
                field,
                operand,
            },
        )?;
        self.top = field;
        Ok(())
    }

    /// A number joins on top, in a new segment. That stands on the others once it is whole.
    fn push_on_new_segment(&mut self, number: i64) -> Result<(), Refusal>
        requires { LAST ≤ self.old.top }
        ensures pushed { (numbers : List ℤ) → IsStack self.old.heap self.old.top numbers
            → IfOk result (λ _. IsStack self.new.heap self.new.top (number ∷ numbers)) }
        ensures refused { (numbers : List ℤ) → IsStack self.old.heap self.old.top numbers
            → OnErr result (IsStack self.new.heap self.new.top numbers) }
        ensures why { (numbers : List ℤ) → IsStack self.old.heap self.old.top numbers
            → IfErr result (MayRefuse self.new.heap self.old.top number) }
        ensures room { IsRoomy 130 self.old.heap
            → IsRoomy 130 self.new.heap × IsToldShort self.new.heap result }
    {
        // Only for the proof: what these commands make of a plain heap, and that no limit refuses
        // a copy.
        plain_heaps_stay_well_formed();
        alloc_makes_an_object();
        store_writes_a_field();
        copy_copies_a_root();
        drop_makes_a_root_nil();
        what_changes_roots_alone_meets_no_limit();
        let (dst, fields) = (NEW, FIELDS);
        call(&mut self.heap, &Command::Alloc { dst, fields })?;
        let (obj, field, operand) = (NEW, 0, Operand::Root(SEGMENT));
        call(
            &mut self.heap,
            &Command::Store {
                obj,
                field,
                operand,
            },
        )?;
        let (obj, field, operand) = (NEW, 1, Operand::Int(number));
        call(
            &mut self.heap,
            &Command::Store {
                obj,
                field,
                operand,
            },
        )?;
        let (dst, src) = (SEGMENT, NEW);
        call(&mut self.heap, &Command::Copy { dst, src })?;
        self.top = 1;
        let _ = call(&mut self.heap, &Command::Drop { root: NEW });
        Ok(())
    }

    /// Takes the number on top; `None` where there is none.
    pub fn pop(&mut self) -> Option<i64>
        ensures popped { (numbers : List ℤ) → IsStack self.old.heap self.old.top numbers
            → (result ≡ first_of numbers)
            × IsStack self.new.heap self.new.top (rest_of numbers) }
        ensures room { IsRoomy 130 self.old.heap → IsRoomy 130 self.new.heap }
    {
        let number = number_in(self.heap.peek(OWNER, SEGMENT, self.top));
        if number.is_some() {
            self.take_top();
        }
        number
    }

    /// The number on top goes.
    fn take_top(&mut self)
        ensures taken { (number : ℤ) (numbers : List ℤ)
            → IsStack self.old.heap self.old.top (number ∷ numbers)
            → IsStack self.new.heap self.new.top numbers }
        ensures room { IsRoomy 130 self.old.heap → IsRoomy 130 self.new.heap }
    {
        if self.top > 1 {
            self.top -= 1;
        } else {
            self.leave_segment();
        }
    }

    /// The segment on top goes, whose only number was taken, and what it stood on is the stack.
    fn leave_segment(&mut self)
        requires { self.old.top ≤ 1 }
        ensures left { (number : ℤ) (numbers : List ℤ)
            → IsStack self.old.heap self.old.top (number ∷ numbers)
            → IsStack self.new.heap self.new.top numbers }
        ensures room { IsRoomy 130 self.old.heap → IsRoomy 130 self.new.heap }
    {
        // Only for the proof: what a load makes of a plain heap, and that no limit refuses it.
        plain_heaps_stay_well_formed();
        load_reads_a_field();
        what_changes_roots_alone_meets_no_limit();
        let (dst, src, field) = (SEGMENT, SEGMENT, 0);
        let _ = call(&mut self.heap, &Command::Load { dst, src, field });
        self.top = LAST;
    }

    /// Why the heap may have no room.
    pub fn short(&self) -> Option<Short>
        ensures { result ≡ self.now.heap.short }
    {
        self.heap.short()
    }
}

/// The number that an answer tells; `None` where it tells none.
fn number_in(answer: Result<Reply, Refusal>) -> Option<i64>
    ensures { result ≡ number_told answer }
{
    match answer {
        Ok(reply) => number_of(reply),
        Err(_) => None,
    }
}

/// The number that a reply tells; `None` where it tells none.
fn number_of(reply: Reply) -> Option<i64>
    ensures { result ≡ number_told (Ok reply) }
{
    match reply {
        Reply::Int(number) => Some(number),
        Reply::Done | Reply::Nil | Reply::Object(_) | Reply::Raw(_) | Reply::Same(_) => None,
    }
}

/// Pushes numbers until one is refused, and pops them all. Answers how many there were, and why the
/// heap had no room for more.
pub fn run<A: Allocator + Copy>(alloc: A) -> Result<(u32, Short), Problem> {
    let mut stack = Stack::new(alloc)?;
    let pushed = push_all(&mut stack);
    let short = stack.short();
    if !are_popped(&mut stack, pushed) {
        return Err(Problem::Answer);
    }
    Ok((pushed, short.ok_or(Problem::Answer)?))
}

/// Pops so many numbers. Whether they were those that were pushed, and all.
fn are_popped<A: Allocator + Copy>(stack: &mut Stack<A>, pushed: u32) -> bool {
    for number in (0..pushed).rev() {
        if stack.pop() != Some(i64::from(number)) {
            return false;
        }
    }
    stack.pop().is_none()
}

/// Pushes numbers until one is refused. Answers how many there were.
fn push_all<A: Allocator + Copy>(stack: &mut Stack<A>) -> u32 {
    for number in 0..2 * AT_MOST {
        if stack.push(number.into()).is_err() {
            return number;
        }
    }
    2 * AT_MOST
}
