//! Laws of fields.
ghost use Rattle.std.specs.Prelude.{◌<◌, ◌^◌, ◌∷◌, [], length};
ghost use Rattle.std.specs.Int.{w16, w32, w64, to_be_bytes};
ghost use Rattle.std.specs.Int.RustNames.{FitsSigned};
ghost use Rattle.wire_fields.specs.Fields.{IsReadBack, HasOneField, byte_at, number_at, signed_at, signed_field, text_at, text_field};

/// A field that was put is read back, whatever follows it.
pub fn fields_are_read_back()
    ensures byte { IsReadBack (λ n. n < 2 ^ 8) (λ n. n ∷ []) byte_at }
    ensures two_bytes { IsReadBack (λ n. n < 2 ^ 16) (to_be_bytes w16) (number_at w16) }
    ensures four_bytes { IsReadBack (λ n. n < 2 ^ 32) (to_be_bytes w32) (number_at w32) }
    ensures eight_bytes { IsReadBack (λ n. n < 2 ^ 64) (to_be_bytes w64) (number_at w64) }
    ensures signed { IsReadBack (FitsSigned w64) signed_field signed_at }
    ensures text { IsReadBack (λ text. length text < 2 ^ 8) text_field text_at }
{}

/// A value has one field alone: bytes from which it is read begin with what is put for it.
pub fn values_have_one_field()
    ensures byte { HasOneField (λ n. n < 2 ^ 8) (λ n. n ∷ []) byte_at }
    ensures two_bytes { HasOneField (λ n. n < 2 ^ 16) (to_be_bytes w16) (number_at w16) }
    ensures four_bytes { HasOneField (λ n. n < 2 ^ 32) (to_be_bytes w32) (number_at w32) }
    ensures eight_bytes { HasOneField (λ n. n < 2 ^ 64) (to_be_bytes w64) (number_at w64) }
    ensures signed { HasOneField (FitsSigned w64) signed_field signed_at }
    ensures text { HasOneField (λ text. length text < 2 ^ 8) text_field text_at }
{}
