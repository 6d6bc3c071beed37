// What went through the pipes of a life as lists of frames. Only clauses read them, and they take no memory.
ghost use Rattle.std.specs.Prelude.{◌≡◌, [], ◌∷◌, ◌++◌};
ghost use Rattle.xa_pipe.specs.Frames.{reply_frame, answer_frame};
ghost use Rattle.xa_pipe.specs.Pipe.{invoke_frame};

use http_server::Log;
use std::marker::Model;
use xa_frame::Frame;
use xa_types::{Answer, Data, Name, Reply};

/// The frames that the program said, the oldest first.
#[derive(Drop)]
pub struct Said {
    log: Log<(), Frame>,
}

impl Model for Said {
    ghost use Rattle.std.specs.Prelude.{List, map};
    ghost use Rattle.xa_frame.specs.declared.frame.Frame.{Frame};

    ghost Value = { List Frame };

    ghost view = { λ said. map (λ pair. pair.1) said.log.items };
}

impl Said {
    pub fn new() -> Said
        ensures { result ≡ [] }
    {
        Said { log: Log::new() }
    }

    pub fn note(&mut self, frame: &Frame)
        ensures { self.new ≡ self.old ++ frame.now ∷ [] }
    {
        self.log = self.log.and(&(), frame);
    }
}

// A frame that was due: an INVOKE, or a REPLY, of an answer by what it was made of.
#[derive(Drop)]
struct Due {
    invoke: Log<(Name, Name, u32), Data>,
    reply: Log<u32, Reply>,
    answer: Log<(u32, u64), Answer>,
}

impl Model for Due {
    ghost use Rattle.std.specs.Prelude.{List, map, ◌++◌};
    ghost use Rattle.xa_frame.specs.declared.frame.Frame.{Frame};
    ghost use Rattle.xa_pipe.specs.Frames.{reply_frame, answer_frame};
    ghost use Rattle.xa_pipe.specs.Pipe.{invoke_frame};

    ghost Value = { List Frame };

    ghost view = { λ due. map (λ pair. invoke_frame pair.0.0 pair.0.1 pair.0.2 pair.1) due.invoke.items
        ++ (map (λ pair. reply_frame pair.0 pair.1) due.reply.items ++ map (λ pair. answer_frame pair.0.0 pair.0.1 pair.1) due.answer.items) };
}

impl Due {
    fn invoke(service: &Name, routine: &Name, number: u32, payload: &Data) -> Due
        ensures { result ≡ invoke_frame service.now routine.now number payload.now ∷ [] }
    {
        Due {
            invoke: Log::new().and(&(*service, *routine, number), payload),
            reply: Log::new(),
            answer: Log::new(),
        }
    }

    fn reply(number: u32, reply: &Reply) -> Due
        ensures { result ≡ reply_frame number reply.now ∷ [] }
    {
        Due {
            invoke: Log::new(),
            reply: Log::new().and(&number, reply),
            answer: Log::new(),
        }
    }

    fn answer(number: u32, descriptor: u64, answer: &Answer) -> Due
        ensures { result ≡ answer_frame number descriptor answer.now ∷ [] }
    {
        Due {
            invoke: Log::new(),
            reply: Log::new(),
            answer: Log::new().and(&(number, descriptor), answer),
        }
    }
}

/// The INVOKEs and REPLYs that were due to the program, the oldest first.
#[derive(Drop)]
pub struct Asked {
    log: Log<(), Due>,
}

impl Model for Asked {
    ghost use Rattle.std.specs.Prelude.{List};
    ghost use Rattle.std.specs.List.{flat_map};
    ghost use Rattle.xa_frame.specs.declared.frame.Frame.{Frame};

    ghost Value = { List Frame };

    ghost view = { λ asked. flat_map (λ pair. pair.1) asked.log.items };
}

impl Asked {
    pub fn new() -> Asked
        ensures { result ≡ [] }
    {
        Asked { log: Log::new() }
    }

    fn note(&mut self, due: &Due)
        ensures { self.new ≡ self.old ++ due.now }
    {
        self.log = self.log.and(&(), due);
    }

    pub fn note_invoke(&mut self, service: &Name, routine: &Name, number: u32, payload: &Data)
        ensures { self.new ≡ self.old ++ invoke_frame service.now routine.now number payload.now ∷ [] }
    {
        self.note(&Due::invoke(service, routine, number, payload));
    }

    pub fn note_reply(&mut self, number: u32, reply: &Reply)
        ensures { self.new ≡ self.old ++ reply_frame number reply.now ∷ [] }
    {
        self.note(&Due::reply(number, reply));
    }

    pub fn note_answer(&mut self, number: u32, descriptor: u64, answer: &Answer)
        ensures { self.new ≡ self.old ++ answer_frame number descriptor answer.now ∷ [] }
    {
        self.note(&Due::answer(number, descriptor, answer));
    }
}
