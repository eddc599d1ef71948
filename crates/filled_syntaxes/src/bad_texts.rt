//! Texts of values that denote none: the first of them, by document and by place.

ghost use Rattle.std.specs.Prelude.{◌≡◌, ◌⊎◌, IsTrue, IsFalse, IfSome, None, Some};
ghost use Rattle.filled_syntaxes.specs.NotedTexts.{IsNoLater, NotesTexts, ThisText};

/// Where the text of a value begins.
#[derive(Clone, Copy)]
pub struct TextPlace {
    /// The number of its document.
    pub document: u32,
    /// The place of its first token in the document, in octets.
    pub token: u64,
}

/// The first of the texts that were noted.
#[derive(Drop)]
pub struct BadTexts {
    /// It, where there is one.
    pub first: Option<TextPlace>,
}

/// Whether a text stands before another one.
fn is_before(one: &TextPlace, other: &TextPlace) -> bool
    ensures before { IsTrue result → IsNoLater one.now other.now }
    ensures behind { IsFalse result → IsNoLater other.now one.now }
{
    if one.document != other.document {
        return one.document < other.document;
    }
    one.token < other.token
}

/// The earlier one of a text that was noted before, where there is one, and a further one.
fn earlier_text(before: Option<TextPlace>, place: TextPlace) -> TextPlace
    ensures one { (result ≡ place) ⊎ (before ≡ Some result) }
    ensures no_later { IsNoLater result place }
    ensures least { IfSome before (λ other. IsNoLater result other) }
{
    match before {
        Some(other) => {
            if is_before(&place, &other) {
                place
            } else {
                other
            }
        }
        None => place,
    }
}

impl BadTexts {
    /// Nothing is noted.
    pub fn none() -> BadTexts
        ensures { result.first ≡ None }
    {
        BadTexts { first: None }
    }

    /// Notes that a text denotes no value.
    pub fn note(&mut self, document: u32, token: u64)
        ensures { NotesTexts (ThisText document token) self.old.first self.new.first }
    {
        let place = TextPlace { document, token };
        self.first = Some(earlier_text(self.first, place));
    }
}
