//! Laws of the texts of ids.
ghost use Rattle.std.specs.Prelude.{◌≡◌, ℕ, List, Some, true};
ghost use Rattle.seg_names.specs.IdTexts.{id_of, id_text, is_seg_id};
ghost use Rattle.seg_names.specs.declared.seg_id.SegId.{SegId};

/// What is written of an id is read as that id, and no other text is.
pub fn has_one_text()
    ensures again { (id : SegId) → is_seg_id id ≡ true → id_of (id_text id) ≡ Some id }
    ensures alone { (text : List ℕ) (id : SegId) → id_of text ≡ Some id → id_text id ≡ text }
{}
