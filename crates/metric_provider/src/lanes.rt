//! The lanes of an instrument.
ghost use Rattle.std.specs.Prelude.{◌≡◌, ◌<◌, ◌≤◌, ◌+◌, [], ◌∷◌, IfOk, OnOk, length, vec_capacity, vec_len};

use crate::turning::{Turns, turn_each};
use crossbeam_utils::CachePadded;
use metric_history::Book;
use metric_slot::Slot;
use std::alloc::{AllocError, Global};
use std::marker::Model;
use std::sync::Mutex;

/// A lane behind its lock, on cache lines of its own.
pub(crate) type Locked<B> = CachePadded<Mutex<Slot<B>>>;

/// An instrument behind its locks, one for each lane. A recorder records in one lane, so that each has the recordings
/// of its own recorders; the facts of each are the instrument's.
#[derive(Drop)]
pub(crate) struct Lanes<B: Book> {
    locks: Vec<Locked<B>>,
    // Room for them out of their locks.
    room: Vec<Slot<B>>,
    // The lane of each recorder; the first where it says none.
    of: Vec<u8>,
}

impl<B: Book> Model for Lanes<B> {
    ghost use Rattle.std.specs.Prelude.{◌<◌, ◌≤◌, ◌≡◌, ℕ, vec_capacity, vec_len};

    // How many lanes there are.
    ghost Value = { ℕ };

    ghost view = { λ l. vec_len l.locks };

    ghost invariant = { λ l.
        (0 < vec_len l.locks) × ((vec_len l.room ≡ 0) × (vec_len l.locks ≤ vec_capacity l.room)) };
}

/// The lanes of an instrument that are out of their locks.
#[derive(Drop)]
pub struct OpenLanes<B: Book> {
    slots: Vec<Slot<B>>,
    // Room for them behind their locks.
    room: Vec<Locked<B>>,
    of: Vec<u8>,
}

impl<B: Book> Model for OpenLanes<B> {
    ghost use Rattle.std.specs.Prelude.{◌<◌, ◌≤◌, ◌≡◌, List, vec_capacity, vec_len};
    ghost use Rattle.metric_core.specs.Cells.{CellValue};

    ghost Value = { List (CellValue B) };

    ghost view = { λ o. o.slots.items };

    ghost invariant = { λ o.
        (0 < vec_len o.slots) × ((vec_len o.room ≡ 0) × (vec_len o.slots ≤ vec_capacity o.room)) };
}

impl<B: Book> Lanes<B> {
    /// An instrument of one lane. Behind the lock is room that nobody writes, so that what the allocator hands out next
    /// lies on other lines of cache. Fails only when out of memory.
    pub(crate) fn one(alloc: Global, slot: Slot<B>) -> Result<Lanes<B>, AllocError>
        ensures { IfOk result (λ lanes. lanes ≡ 1) }
    {
        let mut locks = Vec::with_capacity(alloc, 2)?;
        let room = Vec::with_capacity(alloc, 1)?;
        locks.push_reserved(CachePadded::new(Mutex::new(slot)));
        Ok(Lanes {
            locks,
            room,
            of: Vec::new(alloc),
        })
    }

    /// The place of the lane of a recorder.
    #[inline(always)]
    pub(crate) fn place_of(&self, recorder: u32) -> usize
        ensures { result < self.now }
    {
        let place = usize::from(self.of.get(recorder as usize).copied().unwrap_or(0));
        if place < self.locks.len() { place } else { 0 }
    }

    /// The lane of a recorder.
    #[inline(always)]
    pub(crate) fn lane_of(&self, recorder: u32) -> &Locked<B> {
        &self.locks[self.place_of(recorder)]
    }

    /// All lanes, in the order in which their locks are taken.
    pub(crate) fn all(&self) -> &[Locked<B>]
        ensures count { length result.now ≡ self.now }
        ensures some { 0 < length result.now }
    {
        self.locks.as_slice()
    }

    /// One lane more. Fails only when out of memory.
    pub(crate) fn add(&mut self, slot: Slot<B>) -> Result<(), AllocError>
        ensures { OnOk result (self.new ≡ self.old + 1) }
    {
        self.room.reserve(self.locks.len().saturating_add(1))?;
        self.locks.push(CachePadded::new(Mutex::new(slot)))?;
        Ok(())
    }

    /// Shares the lanes out: the lane of each recorder.
    pub(crate) fn share(&mut self, of: Vec<u8>)
        ensures { self.new ≡ self.old }
    {
        self.of = of;
    }

    /// Takes the lanes out of their locks. Allocates no memory.
    pub(crate) fn unlock(self) -> OpenLanes<B>
        ensures { length result ≡ self }
    {
        let Lanes { locks, room, of } = self;
        let (slots, room) = turn_each(locks, room);
        OpenLanes { slots, room, of }
    }
}

impl<B: Book> OpenLanes<B> {
    /// A lane that has all recordings of its instrument. Fails only when out of memory.
    pub fn one(alloc: Global, slot: Slot<B>) -> Result<OpenLanes<B>, AllocError>
        ensures { IfOk result (λ lanes. lanes ≡ slot ∷ []) }
    {
        let mut slots = Vec::with_capacity(alloc, 1)?;
        slots.push_reserved(slot);
        Ok(OpenLanes {
            slots,
            room: Vec::with_capacity(alloc, 1)?,
            of: Vec::new(alloc),
        })
    }

    /// What each lane has, in order.
    pub(crate) fn slots(&self) -> &[Slot<B>]
        ensures slots { result.now ≡ self.now }
        ensures some { 0 < length result.now }
    {
        self.slots.as_slice()
    }

    /// Puts the lanes behind their locks again. Allocates no memory.
    pub(crate) fn lock(self) -> Lanes<B>
        ensures { result ≡ length self }
    {
        let OpenLanes { slots, room, of } = self;
        let (locks, room) = turn_each(slots, room);
        Lanes { locks, room, of }
    }
}

// A lane comes out of its lock.
impl<B: Book> Turns for Locked<B> {
    type Other = Slot<B>;

    ghost turns = { λ _ _. Unit {0} };

    fn turn(self) -> Slot<B> {
        self.into_inner().into_inner()
    }
}

// A lane is put behind its lock.
impl<B: Book> Turns for Slot<B> {
    type Other = Locked<B>;

    ghost turns = { λ _ _. Unit {0} };

    fn turn(self) -> Locked<B> {
        CachePadded::new(Mutex::new(self))
    }
}

// An instrument's lanes come out of their locks.
impl<B: Book> Turns for Lanes<B> {
    type Other = OpenLanes<B>;

    ghost turns = { λ locked slots. length slots ≡ locked };

    fn turn(self) -> OpenLanes<B> {
        self.unlock()
    }
}

// An instrument's lanes are put behind their locks.
impl<B: Book> Turns for OpenLanes<B> {
    type Other = Lanes<B>;

    ghost turns = { λ slots locked. locked ≡ length slots };

    fn turn(self) -> Lanes<B> {
        self.lock()
    }
}
