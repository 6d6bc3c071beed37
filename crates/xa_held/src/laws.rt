//! What holds of what passes know. Each law is the clause of a function without arguments.
ghost use Rattle.std.specs.Prelude.{◌≡◌, ℕ, ◌<◌, ◌≤◌, ◌∷◌, ◌++◌, [], Bool, true, List, Ok, map};
ghost use Rattle.std.specs.List.{All, filter};
ghost use Rattle.xa_types.specs.declared.data.Data.{Data};
ghost use Rattle.xa_types.specs.declared.ids.CallerId.{CallerId};
ghost use Rattle.xa_types.specs.declared.ids.QueueId.{QueueId};
ghost use Rattle.xa_types.specs.declared.row.Row.{Row};
ghost use Rattle.xa_types.specs.declared.setup.Setup.{Setup};
ghost use Rattle.xa_types.specs.declared.stamp.Stamp.{Stamp};
ghost use Rattle.xa_types.specs.Found.{FoundRows};
ghost use Rattle.xa_types.specs.Rows.{row_for};
ghost use Rattle.xa_events.specs.Board.{boot, published, listed_in};
ghost use Rattle.xa_events.specs.Cases.{RowStands, RowAdmits};
ghost use Rattle.xa_events.specs.Server.{AllGone};
ghost use Rattle.xa_events.specs.Homes.{Home};
ghost use Rattle.xa_stamp.specs.declared.home.Stamped.{Stamped};
ghost use Rattle.xa_lock.specs.declared.makers.Made.{Made};
ghost use Rattle.xa_lock.specs.declared.pass.Page.{Page};
ghost use Rattle.xa_lock.specs.Pages.{Knows, StartsWith};
ghost use Rattle.xa_lock.specs.Makers.{maker_of as made_maker, noted_in};
ghost use Rattle.xa_worker.specs.Seen.{past_in, SawFront, SawDeserted};
ghost use Rattle.xa_worker.specs.Crew.{stands_at};
ghost use Rattle.xa_queue.specs.Queue.{IsSound, none_left};
ghost use Rattle.xa_board.specs.Board.{version_of};
ghost use Rattle.xa_board.specs.Reader.{Finds};
ghost use Rattle.xa_held.specs.declared.kept_board.BoardNote.{BoardNote};
ghost use Rattle.xa_held.specs.declared.kept_board.BoardNote.TheVariants.{Looked};
ghost use Rattle.xa_held.specs.declared.kept_board.Clearing.TheVariants.{Clear};
ghost use Rattle.xa_held.specs.declared.kept_board.Look.{Look};
ghost use Rattle.xa_held.specs.declared.kept_queue.QueueNote.{QueueNote};
ghost use Rattle.xa_held.specs.declared.kept_queue.QueueNote.TheVariants.{By};
ghost use Rattle.xa_held.specs.Board.{Held, IsPlaced, IsSoundBoard, Climbs, made_in, maker_of as change_maker};
ghost use Rattle.xa_held.specs.BoardSteps.{ClearedAs};
ghost use Rattle.xa_held.specs.BoardVisits.{SeesBoard, BoardVisits};
ghost use Rattle.xa_held.specs.Notes.{maker_of, made_page};
ghost use Rattle.xa_held.specs.Kept.{Kept, notes_of};
ghost use Rattle.xa_held.specs.Joins.{changes_page, changes_at, events_at, HasServers, SawLeft};

/// Changes of the board that stand behind a look have greater stamps than it.
pub fn later_than_a_look()
    ensures { (least : ℕ) (front rest : List BoardNote) (look : Look) → Climbs least (front ++ Looked look ∷ rest) → All (λ made. look.stamp.0 < made.noted.stamp.0) (made_in rest) }
{}

/// What a pass knows of a queue under a lock it knows of the queue's events, where what the queue is stands no more among
/// them.
pub fn knows_the_events<A>()
    ensures { (p : Page (QueueNote A)) (k : Kept A) → Knows maker_of p (notes_of k) → Knows made_maker (made_page p) k.queue.entries }
{}

/// What a pass knows of the board under a lock it knows of the board's changes, where looks stand no more among them.
pub fn knows_the_changes()
    ensures { (p : Page BoardNote) (board : Held) → Knows change_maker p board.notes → Knows made_maker (changes_page p) (made_in board.notes) }
{}

/// Where each server of a queue is given up, by the queue or by what a pass saw of it, no server of the queue is left, as
/// the machine has it. What a pass saw of it stands first there ever after.
pub fn all_are_gone<A>()
    ensures kept { (setup : Setup) (k : Kept A) → IsSound k.queue → none_left k.queue ≡ true → HasServers setup k.queue.id.0 k.queue.servers → AllGone setup k.queue.id.0 (past_in (noted_in k.queue.entries)) }
    ensures seen { (setup : Setup) (queue : ℕ) (seen stamp : Stamp) (p : Page (QueueNote A)) (now : List (QueueNote A)) → SawLeft setup queue seen p → StartsWith now p.seen → seen.0 < stamp.0 → SawFront (events_at now) stamp (AllGone setup queue) }
{}

/// A queue of which a pass saw each server given up, and then found no row on the board, which was behind the boot, was seen
/// deserted, for any greater stamp, by what stands at both homes in the end.
pub fn a_clear_board_was_deserted<A>()
    ensures { (setup : Setup) (p p' : Page BoardNote) (q : Page (QueueNote A)) (seen later : Stamp) (maker : CallerId) (queue : QueueId) (look : Look) (board : Held) (k : Kept A)
        → ClearedAs (BoardVisits p p') seen maker queue (Ok (Clear look)) → boot setup ≤ published (past_in (changes_at p.seen)) → SawLeft setup queue.0 seen q → look.stamp.0 < later.0
        → IsSoundBoard board → StartsWith board.notes p'.seen → StartsWith (notes_of k) q.seen → SawDeserted setup queue.0 (noted_in (made_in board.notes)) (noted_in k.queue.entries) later }
{}

/// The version of a board is no lower than that of what a pass had seen there before, and so is the version that a look-up
/// finds. Who saw by what setup the rows are sees it behind each step too.
pub fn a_board_grows()
    ensures version { (seen : List BoardNote) (board : Held) → StartsWith board.notes seen → IsSoundBoard board → published (past_in (changes_at seen)) ≤ version_of board.board }
    ensures found { (p p' : Page BoardNote) (name : List ℕ) (wanted : Bool) (found : FoundRows)
        → BoardVisits p p' [] (λ old new. (new ≡ old) × (found.version ≡ version_of old.board) × Finds old.board name wanted found)
        → published (past_in (changes_at p.seen)) ≤ found.version }
    ensures setup { (setup : Setup) (p p' : Page BoardNote) → StartsWith p'.seen p.seen → SeesBoard setup p → SeesBoard setup p' }
{}

/// Each row that a look-up found stands in the version that it found, with what the setup gives its service, and by it a
/// request is sent, for any stamp behind the board's, if that has a change. The pass saw that version, also where no row was
/// found. A pass that saw by what setup the board's rows are knows that the rows are as that gives them, on queues of it, and
/// are all that the version lists.
pub fn a_found_row_stands()
    ensures version { (p p' : Page BoardNote) (now : List BoardNote) (name : List ℕ) (wanted : Bool) (found : FoundRows) (stamp : Stamp)
        → BoardVisits p p' [] (λ old new. (new ≡ old) × (found.version ≡ version_of old.board) × Finds old.board name wanted found) → StartsWith now p'.seen → (0 < found.version → found.stamp.0 < stamp.0)
        → SawFront (changes_at now) stamp (λ past. found.version ≡ published past) }
    ensures rows { (setup : Setup) (p p' : Page BoardNote) (now : List BoardNote) (name : List ℕ) (wanted : Bool) (found : FoundRows) (stamp : Stamp) (conversational : Bool) (routine : List ℕ) (payload : Data)
        → BoardVisits p p' [] (λ old new. (new ≡ old) × (found.version ≡ version_of old.board) × Finds old.board name wanted found) → StartsWith now p'.seen → (0 < found.version → found.stamp.0 < stamp.0)
        → All (λ row. RowAdmits setup conversational routine payload (row_for setup row.service row.queue.0 row.routine) → SawFront (changes_at now) stamp (RowStands setup found.version row.service row.queue.0 (RowAdmits setup conversational routine payload))) found.rows }
    ensures configured { (setup : Setup) (p p' : Page BoardNote) (name : List ℕ) (wanted : Bool) (found : FoundRows)
        → BoardVisits p p' [] (λ old new. (new ≡ old) × (found.version ≡ version_of old.board) × Finds old.board name wanted found) → SeesBoard setup p
        → All (λ row. row ≡ row_for setup name row.queue.0 row.routine) found.rows }
    ensures placed { (setup : Setup) (p p' : Page BoardNote) (name : List ℕ) (wanted : Bool) (found : FoundRows)
        → BoardVisits p p' [] (λ old new. (new ≡ old) × (found.version ≡ version_of old.board) × Finds old.board name wanted found) → SeesBoard setup p
        → All (IsPlaced setup) found.rows }
    ensures listed { (setup : Setup) (p p' : Page BoardNote) (now : List BoardNote) (name : List ℕ) (wanted : Bool) (found : FoundRows) (stamp : Stamp)
        → BoardVisits p p' [] (λ old new. (new ≡ old) × (found.version ≡ version_of old.board) × Finds old.board name wanted found) → SeesBoard setup p → StartsWith now p'.seen → (0 < found.version → found.stamp.0 < stamp.0)
        → SawFront (changes_at now) stamp (λ past. (found.version ≤ published past) × (listed_in setup past found.version name wanted ≡ found.rows)) }
{}

/// A page has what its maker noted at the page's home, once a step added what it noted there.
pub fn own_goes_on<A>()
    ensures queue { (setup : Setup) (clients : ℕ) (home : Home) (p p' : Page (QueueNote A)) (more : List Made) (noted : List Stamped) → p'.own ≡ p.own ++ map By more → noted_in (made_page p).own ≡ filter (stands_at setup clients home) noted
        → All (λ x. stands_at setup clients home x ≡ true) (noted_in more) → noted_in (made_page p').own ≡ filter (stands_at setup clients home) (noted ++ noted_in more) }
    ensures board { (setup : Setup) (clients : ℕ) (home : Home) (p p' : Page BoardNote) (more : List BoardNote) (noted : List Stamped) → p'.own ≡ p.own ++ more → noted_in (changes_page p).own ≡ filter (stands_at setup clients home) noted
        → All (λ x. stands_at setup clients home x ≡ true) (changes_at more) → noted_in (changes_page p').own ≡ filter (stands_at setup clients home) (noted ++ changes_at more) }
{}
