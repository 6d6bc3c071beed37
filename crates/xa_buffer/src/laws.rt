// What holds of buffers, over all calls.
ghost use Rattle.std.specs.Prelude.{◌≡◌, ◌≢◌, ℕ, List, Ok, IfOk, true};
ghost use Rattle.xa_types.specs.Kind.{is_sound};
ghost use Rattle.xa_types.specs.declared.data.Data.{Data};
ghost use Rattle.xa_types.specs.declared.data.Kind.{Kind};
ghost use Rattle.xa_types.specs.declared.setup.Setup.{Setup};
ghost use Rattle.xa_types.specs.declared.setup.ShapeSetup.{ShapeSetup};
ghost use Rattle.xa_buffer.specs.declared.buffer.Content.{Content};
ghost use Rattle.xa_buffer.specs.declared.value.FieldValue.{FieldValue};
ghost use Rattle.xa_buffer.specs.Contents.{allocated, resized, with_octets, with_field, field_of, packed, unpacked};
ghost use Rattle.xa_buffer.specs.Laws.{IsOf};

/// A field that was given a value has it, and every other field has what it had.
pub fn fields_lie_apart()
    ensures given { (old new : Content) (field : List ℕ) (value : FieldValue) →
        with_field old field value ≡ Ok new → field_of new field ≡ Ok value }
    ensures others { (old new : Content) (field other : List ℕ) (value : FieldValue) →
        with_field old field value ≡ Ok new → other ≢ field → field_of new other ≡ field_of old other }
{}

/// A buffer is made of one of the shapes, and every call leaves it so.
pub fn stays_of_its_shape()
    ensures allocated { (shapes : List ShapeSetup) (kind : Kind) (size : ℕ) →
        IfOk (allocated shapes kind size) (IsOf shapes) }
    ensures unpacked { (shapes : List ShapeSetup) (payload : Data) →
        IfOk (unpacked shapes payload) (IsOf shapes) }
    ensures resized { (shapes : List ShapeSetup) (old : Content) (size : ℕ) →
        IsOf shapes old → IfOk (resized old size) (IsOf shapes) }
    ensures octets { (shapes : List ShapeSetup) (old : Content) (octets : List ℕ) →
        IsOf shapes old → IfOk (with_octets old octets) (IsOf shapes) }
    ensures field { (shapes : List ShapeSetup) (old : Content) (field : List ℕ) (value : FieldValue) →
        IsOf shapes old → IfOk (with_field old field value) (IsOf shapes) }
{}

/// What a buffer is packed to is unpacked to that buffer, and what data is unpacked to is packed to that data.
pub fn unpacks_what_it_packed()
    ensures back { (shapes : List ShapeSetup) (content : Content) →
        IsOf shapes content → unpacked shapes (packed content) ≡ Ok content }
    ensures forth { (shapes : List ShapeSetup) (payload : Data) (content : Content) →
        unpacked shapes payload ≡ Ok content → packed content ≡ payload }
{}

/// Two buffers of the shapes hold the same where they are packed to the same data.
pub fn packed_tells_all()
    ensures { (shapes : List ShapeSetup) (a b : Content) →
        IsOf shapes a → IsOf shapes b → packed a ≡ packed b → a ≡ b }
{}

/// What a buffer of a setup's shapes is packed to is sound.
pub fn packed_is_sound()
    ensures { (setup : Setup) (content : Content) →
        IsOf setup.shapes content → is_sound setup (packed content) ≡ true }
{}
