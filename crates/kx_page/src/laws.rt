//! What a value can do to a page. The function here does nothing when it runs, and carries the law in
//! its contract.
ghost use Rattle.std.specs.Prelude.{◌≡◌};
ghost use Rattle.kx_page.specs.Alike.{DifferInValues};
ghost use Rattle.kx_page.specs.Page.{diagram_of, page_of};
ghost use Rattle.kx_page.specs.Pieces.{markup_of};
ghost use Rattle.kx_page.specs.declared.run.Run.{Run};

/// A law: if two runs differ in values alone, then the characters that begin and end tags,
/// attributes and their values are the same in their pages, one after the other, and in their
/// diagrams. So no value, whatever its bytes are, adds or takes away markup.
pub fn values_add_no_markup()
    ensures page { (one other : Run) → DifferInValues one other
        → markup_of (page_of one) ≡ markup_of (page_of other) }
    ensures diagram { (one other : Run) → DifferInValues one other
        → markup_of (diagram_of one) ≡ markup_of (diagram_of other) }
{}
