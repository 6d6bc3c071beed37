// A life that ended, or was cut.
ghost use Rattle.std.specs.Prelude.{◌≡◌};
ghost use Rattle.xa_events.specs.declared.event.StopCause.TheVariants.{Shutdown, Exit};
ghost use Rattle.xa_pipe.specs.Standing.{IsCutOff, IsOver};
ghost use Rattle.xa_pipe.specs.Ended.{pipes_show, closed_show, are_killed, are_open};

use crate::noted::{Asked, Said};
use crate::turn::{Turn, Written};
use std::marker::Model;
use xa_events::StopCause;
use xa_link::{Closed, Link, ProcessEnd};
use xa_types::{Generation, Name, ServerId};

/// The pipes of a life that ended: open, where its program was told to end and is waited for as they are dropped, or what
/// is left of them, where it ended by itself and was waited for, and where it was ended by force.
#[derive(Drop)]
pub enum Pipes<L> {
    Open(L),
    Closed(Closed<L>),
    Killed(Closed<L>),
}

/// A life that ended, and what is left of its pipes.
#[derive(Drop)]
pub struct EndedLife<L: Link> {
    pub(crate) name: Name,
    pub(crate) server: ServerId,
    pub(crate) generation: Generation,
    pub(crate) pipes: Pipes<L>,
    pub(crate) asked: Asked,
    pub(crate) said: Said,
    pub(crate) turn: Turn,
    pub(crate) cause: StopCause,
    pub(crate) written: Written,
}

impl<L: Link> Model for EndedLife<L> {
    ghost use Rattle.xa_pipe.specs.Standing.{Ending, IsOver};
    ghost use Rattle.xa_pipe.specs.Ended.{pipes_show, ending};

    ghost Value = { Ending };

    ghost view = { λ e. ending e (pipes_show L.Link.shows e.pipes) };

    ghost invariant = { λ e. IsOver (ending e (pipes_show L.Link.shows e.pipes)) };
}

impl<L: Link> EndedLife<L> {
    /// Why it ended.
    pub fn cause(&self) -> StopCause
        ensures value { result ≡ self.now.cause }
        ensures over { IsOver self.now }
    {
        self.cause
    }

    /// Whose life it was.
    pub fn server(&self) -> ServerId
        ensures { result ≡ self.now.life.server }
    {
        self.server
    }

    /// Which life of its server it was, counted from 1.
    pub fn generation(&self) -> Generation
        ensures { result ≡ self.now.life.generation }
    {
        self.generation
    }

    /// How its process ended, where its pipes are closed and that is known.
    pub fn end(&self) -> Option<ProcessEnd> {
        match &self.pipes {
            Pipes::Open(_) => None,
            Pipes::Closed(closed) | Pipes::Killed(closed) => closed.end(),
        }
    }

    /// What is left of its pipes.
    pub fn into_pipes(self) -> Pipes<L>
        ensures killed { are_killed result ≡ self.killed }
        ensures left_open { are_open result ≡ self.left_open }
        ensures shows { pipes_show L.Link.shows result ≡ self.life.link }
        ensures over { IsOver self }
    {
        let EndedLife {
            name: _,
            server: _,
            generation: _,
            pipes,
            asked: _,
            said: _,
            turn: _,
            cause: _,
            written: _,
        } = self;
        pipes
    }
}

/// A life that the monitor didn't go on with, at a halt, as it stood then: its program was ended by force.
#[derive(Drop)]
pub struct CutLife<L: Link> {
    pub(crate) name: Name,
    pub(crate) server: ServerId,
    pub(crate) generation: Generation,
    pub(crate) killed: Closed<L>,
    pub(crate) asked: Asked,
    pub(crate) said: Said,
    pub(crate) turn: Turn,
}

impl<L: Link> Model for CutLife<L> {
    ghost use Rattle.xa_pipe.specs.Standing.{LifeState, IsCutOff};
    ghost use Rattle.xa_pipe.specs.Ended.{cut_at};

    ghost Value = { LifeState };

    ghost view = { λ c. cut_at L.Link.shows c };

    ghost invariant = { λ c. IsCutOff (cut_at L.Link.shows c) };
}

impl<L: Link> CutLife<L> {
    /// Which life of its server it was, counted from 1.
    pub fn generation(&self) -> Generation
        ensures { result ≡ self.now.generation }
    {
        self.generation
    }

    /// What is left of its pipes.
    pub fn into_pipes(self) -> Closed<L>
        ensures shows { closed_show L.Link.shows result ≡ self.link }
        ensures cut_off { IsCutOff self }
    {
        let CutLife {
            name: _,
            server: _,
            generation: _,
            killed,
            asked: _,
            said: _,
            turn: _,
        } = self;
        killed
    }
}
