//! A text that is taken, with the words in which its parts and questions lie.

ghost use Rattle.modeller.specs.Drawings.{Drawn};

use reader::types::Layout;

/// A text that is taken, with the words in which its parts and questions lie.
#[derive(Drop)]
pub struct Drawing<'t, 's> {
    pub text: &'t [u8],
    pub layout: Layout<'s>,
    ghost read: { ∥ Drawn text.now layout ∥₁ },
}
