//! Laws of areas. Each is the contract of a function that does nothing.
ghost use Rattle.std.specs.Prelude.{◌≡◌, ℕ, List, length};
ghost use Rattle.im_types.specs.Types.{AreLimits, Version, layout_of, layout_in_use, Sizes, page_bytes, area_pages};
ghost use Rattle.im_types.specs.Types.{area_bytes, record_at, Records, SpellsArea};
ghost use Rattle.im_records.specs.Paging.{ArePages, FitRecords, joined};

/// An area of either version spells at most one list of records.
pub fn areas_spell_one_list_of_records()
    ensures { (version : Version) (s : Sizes) (area : List ℕ) (r q : Records) → AreLimits s.cells s.elements s.slots
        → SpellsArea (layout_of version) s area r → SpellsArea (layout_of version) s area q → r ≡ q }
{}

/// An area spells these records if its pages have them, and zeros in the places without a record.
pub fn pages_are_an_area()
    ensures { (s : Sizes) (r : Records) (area : List ℕ) → FitRecords s r → length area ≡ area_bytes layout_in_use s
        → ArePages s r (record_at page_bytes area) → SpellsArea layout_in_use s area r }
{}

/// Pages that have the records of an area, and zeros in the other places, spell these records when they are joined.
pub fn joined_pages_are_an_area()
    ensures { (s : Sizes) (r : Records) (page : ℕ → List ℕ) → FitRecords s r → ArePages s r page
        → SpellsArea layout_in_use s (joined (area_pages layout_in_use s) page) r }
{}
