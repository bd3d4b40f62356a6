//! Pieces of octets that are passed in one after another.
ghost use Rattle.std.specs.Prelude.{◌≡◌, ◌<◌, ◌^◌, ℕ, List, [], ◌∷◌, length, IfSome, IfNone};

/// Pieces of octets, one after another. Through this trait, query options of a message reach their
/// reader.
pub trait Pieces<'a> {
    ghost left: { Self → List (List ℕ) };

    /// Returns the next piece, if one is left. Pieces are in memory, so they are fewer than 2^63.
    fn next_piece(&mut self) -> Option<&'a [u8]>
        ensures some { IfSome result (λ piece. left self.old ≡ piece.now ∷ left self.new) }
        ensures none { IfNone result ((left self.old ≡ []) × (left self.new ≡ [])) }
        ensures counted { length (left self.old) < 2 ^ 63 };
}
