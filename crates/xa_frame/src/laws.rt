ghost use Rattle.std.specs.Prelude.{◌≡◌, ℕ, List, ◌++◌};
ghost use Rattle.xa_frame.specs.declared.frame.Frame.{Frame};
ghost use Rattle.xa_frame.specs.Spelling.{spelled, HasSpelling};
ghost use Rattle.xa_frame.specs.Stream.{IsMalformed};

/// No spelling of a frame begins another, so octets are those of one list of frames at most.
pub fn one_frame()
    ensures { (f g : Frame) (x y : List ℕ) → HasSpelling f → HasSpelling g → spelled f ++ x ≡ spelled g ++ y → (f ≡ g) × (x ≡ y) }
{}

/// Where no frame stands, none comes to stand, whatever is fed later.
pub fn malformed_for_ever()
    ensures { (octets more : List ℕ) → IsMalformed octets → IsMalformed (octets ++ more) }
{}
