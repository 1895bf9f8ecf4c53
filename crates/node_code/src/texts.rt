ghost use Rattle.std.specs.Prelude.{◌≡◌, [], IfOk};
ghost use Rattle.node_code.specs.Places.{AreOnce};
ghost use Rattle.node_code.specs.Texts.{IsText};

use mono_syntax::Name;
use name_places::NamePlaces;
use sqlite_items::Items;
use std::alloc::{AllocError, Global};
use std::marker::Model;

/// Texts, each once, in the order in which they were met. Contracts see the list.
#[derive(Drop)]
pub struct TextList {
    texts: Items<Name>,
    places: NamePlaces,
}

impl Model for TextList {
    ghost use Rattle.std.specs.Prelude.{List, ℕ, ◌≡◌};
    ghost use Rattle.node_code.specs.Places.{AreOnce};

    ghost Value = { List (List ℕ) };

    ghost view = { λ t. t.texts };

    ghost invariant = { λ t. (t.places ≡ t.texts) × AreOnce t.texts };
}

/// A text's number, and all texts.
#[derive(Drop)]
pub struct TextAt {
    pub at: u32,
    pub texts: TextList,
}

/// A number of something that stands in a list. There are never as many as numbers: each came with a character of a script of 2^20
/// bytes.
pub(crate) fn numbered(at: usize) -> Result<u32, AllocError>
    ensures { IfOk result (λ r. r ≡ at) }
{
    match u32::try_from(at) {
        Ok(at) => Ok(at),
        Err(_) => Err(AllocError),
    }
}

impl TextList {
    /// No texts.
    pub fn new(alloc: Global) -> TextList
        ensures { result ≡ [] }
    {
        let texts = Items::new(alloc);
        let places = NamePlaces::new(alloc);
        TextList { texts, places }
    }

    /// The texts by number.
    pub fn into_items(self) -> Items<Name>
        ensures same { result ≡ self }
        ensures once { AreOnce result }
    {
        let TextList { texts, places } = self;
        texts
    }

    /// The number of a text, which gets the next one where it has none yet.
    pub fn with_text(self, alloc: Global, text: &Name) -> Result<TextAt, AllocError>
        ensures { IfOk result (IsText self text.now) }
    {
        if let Some(at) = self.places.place(text) {
            let at = numbered(at)?;
            return Ok(TextAt { at, texts: self });
        }
        let TextList { mut texts, places } = self;
        let at = numbered(texts.len())?;
        let places = places.push(alloc, text)?;
        texts.push(text.share()?)?;
        let texts = TextList { texts, places };
        Ok(TextAt { at, texts })
    }
}
