// Laws of the lives of servers. Each is the clause of a function without arguments.
ghost use Rattle.std.specs.Prelude.{◌≡◌, ◌≤◌, ℕ, List, length};
ghost use Rattle.xa_types.specs.declared.setup.Setup.{Setup};
ghost use Rattle.xa_frame.specs.declared.frame.Frame.{Frame};
ghost use Rattle.xa_events.specs.declared.event.Event.{Event};
ghost use Rattle.xa_pipe.specs.Life.{MayFail, came_in, finishes_in};
ghost use Rattle.xa_pipe.specs.Standing.{Ending, IsOver, IsLife};
ghost use Rattle.xa_pipe.specs.Following.{HasStopped, StandsIn};
ghost use Rattle.xa_pipe.specs.Whole.{GivesAll, CameAsSaid, CallsLeft};
ghost use Rattle.xa_events.specs.Words.{AtEach};

/// Where no read and no write of the link failed, the server's calls hadn't come to their end, and the link gives a RETURN or
/// a FORWARD to each request of the life, whole and in turn, each request came to what that says, but that memory may have
/// run out for the last. Nothing shows that it had really run out.
pub fn ends_as_said()
    ensures { (setup : Setup) (clients : ℕ) (past : List Event) (over : Ending) (frames : List Frame)
        → IsLife setup clients past over → AtEach (CallsLeft clients over.life.server.0 over.life.generation.0) past
        → over.life.link.reads ≡ 0 → over.life.link.writes ≡ 0 → GivesAll over.life.name frames over.life.link
        → length (came_in over.life.server.0 over.life.generation.0 past) ≤ length (finishes_in frames)
        → CameAsSaid setup (MayFail setup clients) (finishes_in frames) (came_in over.life.server.0 over.life.generation.0 past) }
{}

/// What a life's own worker carried along its events, and what stands of them in a run, is what the life's link shows: the
/// octets that went to its program are an INVOKE for each take, a REPLY to each call and a SHUTDOWN, those that came from it
/// are its frames, in turn, and what they say came of its requests.
pub fn lives_are_carried()
    ensures { (setup : Setup) (clients : ℕ) (over : Ending) (own past : List Event)
        → IsOver over → HasStopped setup clients (MayFail setup clients) over own → StandsIn setup clients (MayFail setup clients) over own past
        → IsLife setup clients past over }
{}
