//! The merge of all homes: their events by stamp, then home, then place in the home.
ghost use Rattle.std.specs.Prelude.{◌≡◌, ◌++◌, Some, OnOk, IfOk, IsSome};
ghost use Rattle.std.specs.List.{All};
ghost use Rattle.xa_stamp.specs.Merge.{IsMerged, StandAt, places_in, places_from, event_at};

use crate::{Home, Stamped};
use std::alloc::Global;
use xa_events::Event;
use xa_types::{NoMemory, Sequence, Stamp};

/// All homes of a run, in their order.
#[derive(Drop)]
pub struct Record {
    pub homes: Sequence<Home>,
}

/// Where an event stands: its stamp, the number of its home, and its place there; both count from 0. Places compare in
/// this order.
#[derive(Clone, Copy, PartialEq, Eq, PartialOrd, Ord)]
pub struct Place {
    pub stamp: Stamp,
    pub home: usize,
    pub index: usize,
}

fn add_places(places: &mut Vec<Place>, home: usize, entries: &[Stamped]) -> Result<(), NoMemory>
    ensures { OnOk result (places.new.items ≡ places.old.items ++ places_in home 0 entries.now) }
{
    for (index, noted) in entries.iter().enumerate() {
        places.push(Place {
            stamp: noted.stamp,
            home,
            index,
        })?;
    }
    Ok(())
}

fn places_of(alloc: Global, homes: &[Home]) -> Result<Vec<Place>, NoMemory>
    ensures { IfOk result (λ places. places.items ≡ places_from 0 homes.now) }
{
    let mut places = Vec::new(alloc);
    for (number, home) in homes.iter().enumerate() {
        add_places(&mut places, number, home.entries())?;
    }
    Ok(places)
}

fn event_at(homes: &[Home], place: Place) -> &Event
    requires { IsSome (event_at homes.now place) }
    ensures { event_at homes.now place ≡ Some result.now }
{
    &homes[place.home].entries()[place.index].event
}

fn events_at(alloc: Global, homes: &[Home], places: &[Place]) -> Result<Vec<Event>, NoMemory>
    requires { All (λ place. IsSome (event_at homes.now place)) places.now }
    ensures { IfOk result (λ events. StandAt homes.now places.now events.items) }
{
    let mut events = Vec::with_capacity(alloc, places.len())?;
    for place in places {
        events.push_reserved(event_at(homes, *place).copy(alloc)?);
    }
    Ok(events)
}

/// All events of all homes, by stamp, then home, then place in the home.
pub fn merge(alloc: Global, all: &Record) -> Result<Vec<Event>, NoMemory>
    ensures { IfOk result (λ events. IsMerged all.now.homes events.items) }
{
    let homes = all.homes.slice();
    let mut places = places_of(alloc, homes)?;
    places.sort_unstable();
    events_at(alloc, homes, &places)
}
