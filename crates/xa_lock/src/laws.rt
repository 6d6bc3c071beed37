//! What holds of homes with makers. Each law is the clause of a function without arguments.
ghost use Rattle.std.specs.Prelude.{◌≡◌, ◌++◌, List, length, replicate};
ghost use Rattle.xa_types.specs.declared.ids.CallerId.{CallerId};
ghost use Rattle.xa_stamp.specs.declared.home.Stamped.{Stamped};
ghost use Rattle.xa_lock.specs.Pages.{GrewBy};
ghost use Rattle.xa_lock.specs.Makers.{made, maker_of};

/// Where entries are noted, and as many makers added, all the same, the entries grew as who leaves a lock has to show.
pub fn grows_by_one_maker()
    ensures { (maker : CallerId) (makers : List CallerId) (entries more : List Stamped) → length makers ≡ length entries
        → GrewBy maker_of maker.0 (made makers entries) (made (makers ++ replicate (length more) maker) (entries ++ more)) }
{}
