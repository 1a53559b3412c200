//! What a link can carry.

ghost use Rattle.std.specs.Prelude.{List, [], ◌++◌, ⊤};

/// A type of items. It names the order that the list of all items sent over one link keeps. Each prefix of an
/// ordered list is ordered.
pub trait Item {
    ghost in_order: { List Self → Type 0 };

    ghost starts: { in_order [] };

    ghost prefixes: { (front rest : List Self) → in_order (front ++ rest) → in_order front };
}

/// Numbers can go in any order.
impl Item for u32 {
    ghost in_order = { λ numbers. ⊤ };

    ghost starts = { tt };

    ghost prefixes = { λ front rest h. tt };
}
