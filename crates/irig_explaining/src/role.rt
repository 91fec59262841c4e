//! The roles of elements.

ghost use Rattle.std.specs.Prelude.{◌≡◌};
ghost use Rattle.irig_explaining.specs.{Classes.class_of};

/// What an element of a frame can be.
#[derive(Clone, Copy)]
pub enum Role {
    /// It is not used: always a zero.
    Unused,
    /// It carries a bit: a zero or a one.
    Bit,
    /// It is a position identifier, or the marker.
    Position,
}

/// The role of the elements of a class.
pub(crate) fn role_of(class: usize) -> Role
    ensures { (role : Role) → class_of role ≡ class → result ≡ role }
{
    match class {
        0 => Role::Unused,
        1 => Role::Bit,
        _ => Role::Position,
    }
}
