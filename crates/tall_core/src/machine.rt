//! The machine itself.
ghost use Rattle.std.specs.Prelude.{◌≡◌, IfOk, replicate, None, slice_get, slice_set, is_some, is_none, option_map, if◌then◌else◌};
ghost use Rattle.std.specs.List.{list_all};
ghost use Rattle.tall_core.specs.Machine.{laid_piece};

use crate::event::{Event, Held};
use std::alloc::{AllocError, Global};
use std::marker::Model;
use std::mem;

/// Places with their pieces, and what each worker holds.
#[derive(Drop)]
pub struct Machine<P: Drop> {
    places: u64,
    next: u64,
    held: Vec<Option<Held<P>>>,
    published: Vec<Option<P>>,
    // Empty, with room for each place.
    pieces: Vec<P>,
}

impl<P: Drop> Model for Machine<P> {
    ghost use Rattle.std.specs.Prelude.{◌≡◌, ◌≤◌, [], vec_capacity};
    ghost use Rattle.tall_core.specs.Machine.{State, EachOnce, state};

    ghost Value = { State P };

    ghost view = { λ m. state m.places m.next m.held.items m.published.items };

    ghost invariant = { λ m. EachOnce (state m.places m.next m.held.items m.published.items) × (m.pieces.items ≡ []) × (m.places ≤ vec_capacity m.pieces) };
}

impl<P: Drop> Machine<P> {
    ghost use Rattle.std.specs.Prelude.{◌≡◌, ◌<◌, IfOk, IfSome, IsTrue, map, true, slice_get, length};
    ghost use Rattle.tall_core.specs.Machine.{start, after, Answers, EachOnce, is_done, is_idle, vacant_place};

    /// Takes all memory that the machine ever needs.
    pub fn new(alloc: Global, places: u64, workers: u32) -> Result<Machine<P>, AllocError>
        ensures { IfOk result (λ m. m ≡ start places workers) }
    {
        Ok(Machine {
            places,
            next: 0,
            held: filled(alloc, workers as usize)?,
            published: filled(alloc, places as usize)?,
            pieces: Vec::with_capacity(alloc, places as usize)?,
        })
    }

    /// Does the event, or hands it back where it is not allowed: then nothing changed.
    pub fn step(&mut self, event: Event<P>) -> Result<(), Event<P>>
        ensures { Answers (after self.old event) event result self.old self.new }
    {
        match event {
            Event::Claim(worker) => self.claim(worker),
            Event::ClaimPast(worker) => self.claim_past(worker),
            Event::Lay(worker, piece) => self.lay(worker, piece),
            Event::Publish(worker) => self.publish(worker),
        }
    }

    fn is_idle(&self, worker: u32) -> bool
        ensures idle { result ≡ is_idle (slice_get self.now.held worker) }
        ensures there { IsTrue result → worker < length self.now.held }
    {
        match self.held.get(worker as usize) {
            Some(held) => held.is_none(),
            None => false,
        }
    }

    // The place that the worker holds without a piece.
    fn vacant_place(&self, worker: u32) -> Option<u64>
        ensures place { result ≡ vacant_place (slice_get self.now.held worker) }
        ensures there { IfSome result (λ _. worker < length self.now.held) }
    {
        match self.held.get(worker as usize) {
            Some(Some(held)) => match held.piece {
                None => Some(held.place),
                Some(_) => None,
            },
            Some(None) => None,
            None => None,
        }
    }

    fn claim(&mut self, worker: u32) -> Result<(), Event<P>>
        ensures { Answers (after self.old (Event.Claim worker)) (Event.Claim worker) result self.old self.new }
    {
        if self.is_idle(worker) && self.next < self.places {
            self.held[worker as usize] = Some(Held {
                place: self.next,
                piece: None,
            });
            self.next += 1;
            return Ok(());
        }
        Err(Event::Claim(worker))
    }

    fn claim_past(&mut self, worker: u32) -> Result<(), Event<P>>
        ensures { Answers (after self.old (Event.ClaimPast worker)) (Event.ClaimPast worker) result self.old self.new }
    {
        if self.is_idle(worker) && self.next == self.places {
            return Ok(());
        }
        Err(Event::ClaimPast(worker))
    }

    fn lay(&mut self, worker: u32, piece: P) -> Result<(), Event<P>>
        ensures { Answers (after self.old (Event.Lay worker piece)) (Event.Lay worker piece) result self.old self.new }
    {
        match self.vacant_place(worker) {
            Some(place) => {
                self.held[worker as usize] = Some(Held {
                    place,
                    piece: Some(piece),
                });
                Ok(())
            }
            None => Err(Event::Lay(worker, piece)),
        }
    }

    fn publish(&mut self, worker: u32) -> Result<(), Event<P>>
        ensures { Answers (after self.old (Event.Publish worker)) (Event.Publish worker) result self.old self.new }
    {
        match take_piece(&mut self.held, worker) {
            Some((place, piece)) => {
                self.published[place as usize] = Some(piece);
                Ok(())
            }
            None => Err(Event::Publish(worker)),
        }
    }

    /// Whether each place was claimed and no worker holds one.
    pub fn done(&self) -> bool
        ensures done { result ≡ is_done self.now }
        ensures once { EachOnce self.now }
    {
        self.next == self.places && is_none_held(&self.held)
    }

    /// One piece for each place, in place order.
    pub fn into_pieces(self) -> Vec<P>
        requires { is_done self ≡ true }
        ensures { map (λ p. Some p) result.items ≡ self.published }
    {
        let Machine {
            published,
            mut pieces,
            ..
        } = self;
        for piece in published {
            let Some(piece) = piece else { unreachable!() };
            pieces.push_reserved(piece);
        }
        pieces
    }
}

// A list of nothing.
fn filled<T: Drop>(alloc: Global, len: usize) -> Result<Vec<Option<T>>, AllocError>
    ensures { IfOk result (λ v. v.items ≡ replicate len None) }
{
    let mut items = Vec::with_capacity(alloc, len)?;
    for made in 0..len {
        items.push(None)?;
    }
    Ok(items)
}

// The worker's laid piece, with its place: the worker then holds nothing.
fn take_piece<P: Drop>(held: &mut Vec<Option<Held<P>>>, worker: u32) -> Option<(u64, P)>
    ensures piece { result ≡ laid_piece (slice_get held.old.items worker) }
    ensures held { held.new.items ≡ (if is_some result then slice_set held.old.items worker None else held.old.items) }
{
    if !has_piece(held.get(worker as usize)) {
        return None;
    }
    match mem::replace(&mut held[worker as usize], None) {
        Some(
            Held {
                place,
                piece: Some(piece),
            },
        ) => Some((place, piece)),
        _ => unreachable!(),
    }
}

fn has_piece<P>(held: Option<&Option<Held<P>>>) -> bool
    ensures { result ≡ is_some (laid_piece (option_map (λ x. x.now) held.entry)) }
{
    match held {
        Some(Some(held)) => held.piece.is_some(),
        Some(None) => false,
        None => false,
    }
}

fn is_none_held<P>(held: &Vec<Option<Held<P>>>) -> bool
    ensures { result ≡ list_all is_none held.now.items }
{
    held.iter().all(|held| held.is_none())
}
