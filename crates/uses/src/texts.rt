//! Long texts that objects stand for. Each is kept outside the heap, in a table by place. Its
//! object's field has the place, and a ticket watches the object. Once the object is gone the text
//! is freed, and its place with it.

ghost use Rattle.std.specs.Prelude.{◌≡◌, ◌≢◌, ◌↔◌, ◌+◌, ◌<◌, ℕ, Bool, false, None, IfNone, IfOk, IfSome, IsOk, OnErr, length, option_map, replicate, slice_set};
ghost use Rattle.rh_watches.specs.declared.watch.Watch.TheVariants.{Gone, On};
ghost use Rattle.rh_model.specs.Reach.{Reached};
ghost use Rattle.rh_mutator.specs.Mutator.{graph_of};
ghost use Rattle.rh_core.specs.Commands.{heap_step};
ghost use Rattle.rh_core.specs.Watching.{watch_step};
ghost use Rattle.rh_growing.specs.Calls.{IsGrowingCall};
ghost use Rattle.rh_growing.specs.Watching.{with_heap};
ghost use Rattle.uses.specs.Files.{IsClosed, TicketsFollow, files_open, ticket_of, tickets_of};
ghost use Rattle.uses.specs.Texts.{AreTexts, IsFreed, IsPut, text_at};

use crate::files::Files;
use crate::problem::Problem;
use rh_heap::{
    Command, EpochsSpent, Flipped, Operand, OutOfMemory, Refusal, Reply, RootId, WatchError,
};
use std::alloc::{AllocError, Allocator};
use std::marker::Model;

/// The most words of a space.
const AT_MOST: u32 = 100_000;

/// The texts that are put.
const TEXTS: u32 = 500;

const OWNER: u32 = 1;

/// The objects whose texts are kept.
const LIST: RootId = RootId { owner: 1, slot: 0 };

/// The object that stands for the text that was put last.
const TEXT: RootId = RootId { owner: 1, slot: 1 };

/// An object's field that has its text's place.
const PLACE: u32 = 0;

/// Its field that has the next object of the list.
const NEXT: u32 = 1;

/// Texts by place, and the heap with the objects that stand for them. A place has a text exactly as
/// long as one ticket has it for its file, and no two tickets have the same place.
#[derive(Drop)]
pub struct Texts<A: Allocator> {
    /// The tickets of the objects. A file's number is the place of its text.
    files: Files<A>,
    /// By place.
    texts: Vec<Option<String<A>>, A>,
}

impl<A: Allocator> Model for Texts<A> {
    ghost use Rattle.uses.specs.Texts.{AreTexts, TextsState, texts_state};

    ghost Value = { TextsState };

    ghost view = { λ s. texts_state s.files s.texts.items };

    ghost invariant = { λ s. AreTexts (texts_state s.files s.texts.items) };
}

impl<A: Allocator + Copy> Texts<A> {
    /// No text is there. All memory for so many tickets and places is taken here, but not that of
    /// the texts.
    ///
    /// # Errors
    ///
    /// The words make no heap, the tickets are too many, or memory was refused.
    pub fn new(alloc: A, at_most: u32, tickets: u32) -> Result<Texts<A>, Problem>
        ensures room { IfOk result (λ s. length s.texts ≡ tickets) }
        ensures none { IfOk result (λ s. (place : ℕ) → text_at s place ≡ None) }
    {
        let files = Files::new(alloc, at_most, tickets)?;
        let Ok(texts) = no_texts(alloc, tickets) else {
            return Err(Problem::OutOfMemory(OutOfMemory));
        };
        Ok(Texts { files, texts })
    }

    /// One command, as `Files::command`. All texts stay.
    ///
    /// # Errors
    ///
    /// As `Files::command`; nothing has changed then.
    pub fn command(&mut self, owner: u32, command: &Command) -> Result<Reply, Refusal>
        ensures call { (given : Bool)
            × IsGrowingCall given self.old.files.heap self.new.files.heap owner command.now result }
        ensures texts { self.new.texts ≡ self.old.texts }
        ensures table { self.new.files.table ≡ self.old.files.table }
        ensures reached { TicketsFollow
            (graph_of (heap_step self.old.files.heap.paced.heap owner command.now).0.mutators)
            (tickets_of self.old.files) (tickets_of self.new.files) }
        ensures refused { OnErr result (self.new ≡ self.old) }
    {
        self.files.command(owner, command)
    }

    /// Collects, as `Files::collect`. All texts stay.
    ///
    /// # Errors
    ///
    /// As `Files::collect`; nothing has changed then.
    pub fn collect(&mut self) -> Result<Flipped, EpochsSpent>
        ensures texts { self.new.texts ≡ self.old.texts }
        ensures table { self.new.files.table ≡ self.old.files.table }
        ensures reached { TicketsFollow (graph_of self.old.files.heap.paced.heap.mutators)
            (tickets_of self.old.files) (tickets_of self.new.files) }
        ensures told { self.old.files.heap.paced.heap.mutators.cycle ≡ false → IsOk result
            → (ticket a : ℕ) → ticket_of self.old.files ticket ≡ On a
            → (ticket_of self.new.files ticket ≡ Gone)
            ↔ ¬ Reached (graph_of self.old.files.heap.paced.heap.mutators) a }
        ensures refused { OnErr result (self.new ≡ self.old) }
    {
        self.files.collect()
    }

    /// The object that the root holds stands for the text from now on. Answers the text's place,
    /// which had none. All other texts stay.
    ///
    /// # Errors
    ///
    /// `Full` where each place has a text, or no ticket is free; other refusals as `Files::add`;
    /// out of memory where the text's memory was refused. Nothing has changed then.
    pub fn put(&mut self, owner: u32, root: RootId, text: &str) -> Result<u32, Problem>
        ensures put { IfOk result (λ place. IsPut self.old self.new root place text.now) }
        ensures heap { IfOk result (λ _. self.new.files.heap ≡ with_heap self.old.files.heap
            (watch_step self.old.files.heap.paced.heap owner root).0) }
        ensures refused { OnErr result (self.new ≡ self.old) }
    {
        let Some(place) = self.free_place() else {
            return Err(Problem::Watch(WatchError::Full));
        };
        let alloc = *self.texts.allocator();
        let Ok(kept) = String::from_str(alloc, text) else {
            return Err(Problem::OutOfMemory(OutOfMemory));
        };
        let _ = self.files.add(owner, root, place)?;
        self.texts[place as usize] = Some(kept);
        Ok(place)
    }

    /// The text of a place, `None` where it has none.
    pub fn text(&self, place: u32) -> Option<&str>
        ensures { option_map (λ t. t.now) result ≡ text_at self.now place }
    {
        if self.texts.len() <= place as usize {
            return None;
        }
        match &self.texts[place as usize] {
            Some(text) => Some(text.as_str()),
            None => None,
        }
    }

    /// Frees each text whose object is gone, and no other. Answers how many these were.
    pub fn free_gone(&mut self) -> usize
        ensures freed { IsFreed self.old self.new }
        ensures count { files_open self.old.files.table
            ≡ result + files_open self.new.files.table }
    {
        // Only for the proof: what places and tickets keep.
        let _ = &self.files;
        let mut freed = 0;
        loop {
            match self.free_next() {
                None => return freed,
                Some(_) => freed += 1,
            }
        }
    }

    /// Frees the next text whose object is gone. Answers its place, `None` where there is none.
    fn free_next(&mut self) -> Option<u32>
        ensures closed { IfSome result (λ place.
            (ticket : ℕ) × IsClosed self.old.files self.new.files ticket place) }
        ensures texts { IfSome result (λ place.
            self.new.texts ≡ slice_set self.old.texts place None) }
        ensures kept { AreTexts self.new }
        ensures none { IfNone result ((self.new ≡ self.old)
            × ((ticket : ℕ) → ticket_of self.old.files ticket ≢ Gone)) }
    {
        let place = self.files.next_to_close()?;
        self.texts[place as usize] = None;
        Some(place)
    }

    /// A place without a text, if there is one.
    fn free_place(&self) -> Option<u32>
        ensures { IfSome result (λ place. (place < length self.now.texts)
            × (text_at self.now place ≡ None)) }
    {
        for place in 0..u32::MAX {
            if self.texts.len() <= place as usize {
                return None;
            }
            if self.texts[place as usize].is_none() {
                return Some(place);
            }
        }
        None
    }
}

/// So many places without a text.
fn no_texts<A: Allocator + Copy>(
    alloc: A,
    places: u32,
) -> Result<Vec<Option<String<A>>, A>, AllocError>
    ensures { IfOk result (λ texts. texts.items ≡ replicate places None) }
{
    let mut texts = Vec::with_capacity(alloc, places as usize)?;
    for _ in 0..places {
        texts.push(None)?;
    }
    Ok(texts)
}

/// Puts a text for a new object, which has the text's place. If it is to be kept, the object stands
/// in front of the list then.
fn put_next<A: Allocator + Copy>(
    texts: &mut Texts<A>,
    text: &str,
    keep: bool,
) -> Result<(), Problem> {
    let (dst, fields) = (TEXT, 2);
    texts.command(OWNER, &Command::Alloc { dst, fields })?;
    let place = texts.put(OWNER, TEXT, text)?;
    let (obj, field, operand) = (TEXT, PLACE, Operand::Int(i64::from(place)));
    texts.command(
        OWNER,
        &Command::Store {
            obj,
            field,
            operand,
        },
    )?;
    if keep {
        let (obj, field, operand) = (TEXT, NEXT, Operand::Root(LIST));
        texts.command(
            OWNER,
            &Command::Store {
                obj,
                field,
                operand,
            },
        )?;
        let (dst, src) = (LIST, TEXT);
        texts.command(OWNER, &Command::Copy { dst, src })?;
    }
    Ok(())
}

/// How many bytes the text of the list's first object has. The object leaves the list. `None` where
/// the list is empty.
fn use_next<A: Allocator + Copy>(texts: &mut Texts<A>) -> Result<Option<usize>, Problem> {
    let (dst, src, field) = (TEXT, LIST, PLACE);
    let place = match texts.command(OWNER, &Command::Load { dst, src, field }) {
        Ok(Reply::Int(place)) => place,
        Ok(_) => return Err(Problem::Answer),
        Err(Refusal::NotObject) => return Ok(None),
        Err(why) => return Err(Problem::Refused(why)),
    };
    let (dst, field) = (LIST, NEXT);
    texts.command(OWNER, &Command::Load { dst, src, field })?;
    let Ok(place) = u32::try_from(place) else {
        return Err(Problem::Answer);
    };
    match texts.text(place) {
        Some(text) => Ok(Some(text.len())),
        None => Err(Problem::Answer),
    }
}

/// Puts texts, keeps the object of every tenth one, collects, and uses the texts that are left.
/// Answers how many were freed, and how many bytes the others have.
pub fn run<A: Allocator + Copy>(alloc: A) -> Result<(usize, usize), Problem> {
    let mut texts = Texts::new(alloc, AT_MOST, TEXTS)?;
    run_in(alloc, &mut texts)
}

/// Puts texts in this table, collects, and uses those that are left. Answers as `run`.
fn run_in<A: Allocator + Copy>(alloc: A, texts: &mut Texts<A>) -> Result<(usize, usize), Problem> {
    for n in 0..TEXTS {
        put_numbered(alloc, texts, n)?;
    }
    let _ = texts.collect();
    let freed = texts.free_gone();
    let mut bytes = 0usize;
    for _ in 0..TEXTS {
        let Some(more) = use_next(texts)? else {
            break;
        };
        bytes = bytes.saturating_add(more);
    }
    Ok((freed, bytes))
}

/// Puts a text with this number, and keeps its object where that is a tenth one.
fn put_numbered<A: Allocator + Copy>(
    alloc: A,
    texts: &mut Texts<A>,
    n: u32,
) -> Result<(), Problem> {
    let Ok(text) = format!(in alloc; "text {n}: too long for the fields of an object") else {
        return Err(Problem::OutOfMemory(OutOfMemory));
    };
    put_next(texts, text.as_str(), n % 10 == 0)
}
