// The rule of the table, and what its steps tell.
ghost use Rattle.std.specs.Prelude.{◌≡◌};

use crate::view::{Carried, View};
use atomic_table::{Join, Play, Split, TableRule};
use std::alloc::Global;

pub struct Cellular;

impl<A> TableRule<Option<Carried<A>>, View<A>, Vec<u32, Global>> for Cellular {
    ghost use Rattle.xa_cell.specs.Rule.{Ruled};
    ghost use Rattle.xa_cell.specs.Dealing.{whole};

    ghost holds = { λ limits. Ruled limits.items };

    ghost first = { λ limits. whole limits.items };
}

pub struct Look;

impl<A> Play<Option<Carried<A>>, View<A>> for Look {
    ghost use Rattle.xa_cell.specs.Steps.{looks};

    ghost then = { looks };
}

pub struct Open;

impl<A> Play<Option<Carried<A>>, View<A>> for Open {
    ghost use Rattle.xa_cell.specs.Steps.{opens};

    ghost then = { opens };
}

pub struct Place;

impl<A> Play<Option<Carried<A>>, View<A>> for Place {
    ghost use Rattle.xa_cell.specs.Steps.{places};

    ghost then = { places };
}

pub struct Fill;

impl<A> Play<Option<Carried<A>>, View<A>> for Fill {
    ghost use Rattle.xa_cell.specs.Steps.{fills};

    ghost then = { fills };
}

pub struct Take;

impl<A> Play<Option<Carried<A>>, View<A>> for Take {
    ghost use Rattle.xa_cell.specs.Steps.{takes};

    ghost then = { takes };
}

pub struct Free;

impl<A> Play<Option<Carried<A>>, View<A>> for Free {
    ghost use Rattle.xa_cell.specs.Steps.{frees};

    ghost then = { frees };
}

pub struct Withdraw;

impl<A> Play<Option<Carried<A>>, View<A>> for Withdraw {
    ghost use Rattle.xa_cell.specs.Steps.{withdraws};

    ghost then = { withdraws };
}

pub struct Cancel;

impl<A> Play<Option<Carried<A>>, View<A>> for Cancel {
    ghost use Rattle.xa_cell.specs.Steps.{cancels};

    ghost then = { cancels };
}

pub struct Clear;

impl<A> Play<Option<Carried<A>>, View<A>> for Clear {
    ghost use Rattle.xa_cell.specs.Steps.{clears};

    ghost then = { clears };
}

/// The tickets go to a new seat.
pub struct Tickets;

impl<A> Split<View<A>> for Tickets {
    ghost use Rattle.xa_cell.specs.Tokens.{without_tickets, only_tickets};

    ghost left = { without_tickets };

    ghost right = { only_tickets };
}

/// The first caller's cells go to a new seat.
pub struct First;

impl<A> Split<View<A>> for First {
    ghost use Rattle.xa_cell.specs.Dealing.{but_first, first_only};

    ghost left = { but_first };

    ghost right = { first_only };
}

/// All that the other seat's view holds comes in.
pub struct All;

impl<A> Join<View<A>> for All {
    ghost use Rattle.xa_cell.specs.Joined.{both};
    ghost use Rattle.xa_cell.specs.Tokens.{spent};

    ghost both = { both };

    ghost spent = { spent };
}
