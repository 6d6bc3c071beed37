// The requests of a caller that are out.
ghost use Rattle.std.specs.Prelude.{◌≡◌, ◌<◌, ◌∷◌, ◌++◌, [], length, map, slice_get, Some, IfOk, OnOk};
ghost use Rattle.std.specs.List.{position};
ghost use Rattle.xa_caller.specs.Descriptors.{StandsAt, is_at};
ghost use Rattle.xa_caller.specs.Phases.{request_of};

use crate::phase::Open;
use std::alloc::Global;
use std::marker::Model;
use xa_types::{NoMemory, RequestId};

/// Requests with their places, in order.
pub(crate) struct Descriptors {
    all: Vec<Open>,
}

impl Model for Descriptors {
    ghost use Rattle.std.specs.Prelude.{◌-◌, vec_len, vec_capacity};
    ghost use Rattle.xa_caller.specs.Descriptors.{InOrder};

    ghost Value = { InOrder };

    ghost view = { λ d. record { all = d.all.items; room = vec_capacity d.all - vec_len d.all } };
}

impl Descriptors {
    /// None is out. It takes no memory.
    pub fn new(alloc: Global) -> Descriptors
        ensures { result.all ≡ [] }
    {
        Descriptors {
            all: Vec::new(alloc),
        }
    }

    /// How many are out.
    pub fn len(&self) -> usize
        ensures { result ≡ length self.now.all }
    {
        self.all.len()
    }

    /// Makes room for one more.
    pub fn reserve(&mut self) -> Result<(), NoMemory>
        ensures all { self.new.all ≡ self.old.all }
        ensures room { OnOk result (0 < self.new.room) }
    {
        self.all.reserve(1)?;
        Ok(())
    }

    /// One more is out, for which there is room.
    pub fn push(&mut self, asked: Open)
        requires { 0 < self.old.room }
        ensures { self.new.all ≡ self.old.all ++ asked ∷ [] }
    {
        self.all.push_reserved(asked);
    }

    /// The place of the one with that descriptor, counted from 0.
    pub fn find(&self, descriptor: u64) -> Option<usize>
        ensures { result ≡ position (is_at descriptor) self.now.all }
    {
        self.all
            .iter()
            .position(|asked| asked.request.number == descriptor)
    }

    /// The one at that place, counted from 0.
    pub fn get(&self, place: usize) -> &Open
        requires { place < length self.now.all }
        ensures { slice_get self.now.all place ≡ Some result.now }
    {
        &self.all[place]
    }

    /// The requests, in order.
    pub fn requests(&self, alloc: Global) -> Result<Vec<RequestId>, NoMemory>
        ensures { IfOk result (λ requests. requests.items ≡ map request_of self.now.all) }
    {
        let mut requests = Vec::with_capacity(alloc, self.all.len())?;
        for asked in &self.all {
            requests.push_reserved(asked.request);
        }
        Ok(requests)
    }

    /// Takes the one at that place out. The others stay in their order.
    pub fn take(&mut self, place: usize) -> Open
        requires { place < length self.old.all }
        ensures stood { (stood : StandsAt place result self.old.all) × (self.new.all ≡ stood.front ++ stood.back) }
        ensures is { slice_get self.old.all place ≡ Some result }
    {
        self.all.remove(place)
    }

    /// Ends them, where none is out.
    pub fn end(self)
        requires { self.all ≡ [] }
    {
        let Descriptors { all } = self;
        all.destroy_empty();
    }
}
